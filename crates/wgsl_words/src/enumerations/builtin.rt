//! Built-in values.

use std::fmt;
use std::str::FromStr;

/// A built-in value of a shader stage (WGSL, "Built-in inputs and outputs").
#[derive(Clone, Copy, Debug, PartialEq, Eq)]
pub enum BuiltinValue {
    /// `vertex_index`
    VertexIndex,
    /// `instance_index`
    InstanceIndex,
    /// `clip_distances`
    ClipDistances,
    /// `position`
    Position,
    /// `front_facing`
    FrontFacing,
    /// `frag_depth`
    FragDepth,
    /// `sample_index`
    SampleIndex,
    /// `sample_mask`
    SampleMask,
    /// `local_invocation_id`
    LocalInvocationId,
    /// `local_invocation_index`
    LocalInvocationIndex,
    /// `global_invocation_id`
    GlobalInvocationId,
    /// `workgroup_id`
    WorkgroupId,
    /// `num_workgroups`
    NumWorkgroups,
    /// `subgroup_invocation_id`
    SubgroupInvocationId,
    /// `subgroup_size`
    SubgroupSize,
}

impl fmt::Display for BuiltinValue {
    ghost use Rattle.std.specs.Prelude.{Some};
    ghost use Rattle.wgsl_words.specs.Texts.{builtin_value_text};

    ghost output = { λ word. Some (builtin_value_text word) };

    fn fmt<W: fmt::Write>(&self, f: &mut fmt::Formatter<W>) -> fmt::Result {
        f.write_str(match self {
            BuiltinValue::VertexIndex => "vertex_index",
            BuiltinValue::InstanceIndex => "instance_index",
            BuiltinValue::ClipDistances => "clip_distances",
            BuiltinValue::Position => "position",
            BuiltinValue::FrontFacing => "front_facing",
            BuiltinValue::FragDepth => "frag_depth",
            BuiltinValue::SampleIndex => "sample_index",
            BuiltinValue::SampleMask => "sample_mask",
            BuiltinValue::LocalInvocationId => "local_invocation_id",
            BuiltinValue::LocalInvocationIndex => "local_invocation_index",
            BuiltinValue::GlobalInvocationId => "global_invocation_id",
            BuiltinValue::WorkgroupId => "workgroup_id",
            BuiltinValue::NumWorkgroups => "num_workgroups",
            BuiltinValue::SubgroupInvocationId => "subgroup_invocation_id",
            BuiltinValue::SubgroupSize => "subgroup_size",
        })
    }
}

impl FromStr for BuiltinValue {
    ghost use Rattle.wgsl_words.specs.Texts.{ParsesExactly, builtin_value_spelled};

    type Err = ();

    ghost from_str_gives = { ParsesExactly builtin_value_spelled };

    fn from_str(text: &str) -> Result<BuiltinValue, ()> {
        match text {
            "vertex_index" => Ok(BuiltinValue::VertexIndex),
            "instance_index" => Ok(BuiltinValue::InstanceIndex),
            "clip_distances" => Ok(BuiltinValue::ClipDistances),
            "position" => Ok(BuiltinValue::Position),
            "front_facing" => Ok(BuiltinValue::FrontFacing),
            "frag_depth" => Ok(BuiltinValue::FragDepth),
            "sample_index" => Ok(BuiltinValue::SampleIndex),
            "sample_mask" => Ok(BuiltinValue::SampleMask),
            "local_invocation_id" => Ok(BuiltinValue::LocalInvocationId),
            "local_invocation_index" => Ok(BuiltinValue::LocalInvocationIndex),
            "global_invocation_id" => Ok(BuiltinValue::GlobalInvocationId),
            "workgroup_id" => Ok(BuiltinValue::WorkgroupId),
            "num_workgroups" => Ok(BuiltinValue::NumWorkgroups),
            "subgroup_invocation_id" => Ok(BuiltinValue::SubgroupInvocationId),
            "subgroup_size" => Ok(BuiltinValue::SubgroupSize),
            _ => Err(()),
        }
    }
}
