//! The inputs of an entry point as the machine takes them.

use std::alloc::AllocError;
use wgsl_base::Items;
use wgsl_eval_machine::Machine;
use wgsl_instance::{Instance, VecInstance};
use wgsl_memory::Inputs;
use wgsl_scalar::{IntegerType, ScalarType};
use wgsl_shader_type::LiteralInstance;
use wgsl_words::BuiltinValue;

fn add(
    machine: &mut Machine,
    builtin: BuiltinValue,
    value: Option<LiteralInstance>,
) -> Result<(), AllocError> {
    match value {
        None => Ok(()),
        Some(value) => machine.builtins.push((builtin, Instance::Literal(value))),
    }
}

fn add_number(
    machine: &mut Machine,
    builtin: BuiltinValue,
    value: Option<u32>,
) -> Result<(), AllocError> {
    add(machine, builtin, value.map(|n| LiteralInstance::U32(n)))
}

fn add_triple(
    machine: &mut Machine,
    builtin: BuiltinValue,
    value: Option<[u32; 3]>,
) -> Result<(), AllocError> {
    let Some(triple) = value else {
        return Ok(());
    };
    let mut components = Items::new(machine.alloc);
    components.push(LiteralInstance::U32(triple[0]))?;
    components.push(LiteralInstance::U32(triple[1]))?;
    components.push(LiteralInstance::U32(triple[2]))?;
    machine.builtins.push((
        builtin,
        Instance::Vec(VecInstance {
            ty: ScalarType::Integer(IntegerType::U32),
            components,
        }),
    ))
}

fn add_located(machine: &mut Machine, inputs: &Inputs) -> Result<(), AllocError> {
    for (location, value) in inputs.user_defined.iter() {
        let value = value.clone(machine.alloc)?;
        machine.located.push((*location, value))?;
    }
    Ok(())
}

/// The machine takes the inputs, in the place of those that it had.
pub(crate) fn take_inputs(machine: &mut Machine, inputs: &Inputs) -> Result<(), AllocError> {
    drop(std::mem::replace(&mut machine.builtins, Items::new(machine.alloc)));
    drop(std::mem::replace(&mut machine.located, Items::new(machine.alloc)));
    add_number(machine, BuiltinValue::VertexIndex, inputs.vertex_index)?;
    add_number(machine, BuiltinValue::InstanceIndex, inputs.instance_index)?;
    add_number(machine, BuiltinValue::SampleIndex, inputs.sample_index)?;
    add_number(machine, BuiltinValue::SampleMask, inputs.sample_mask)?;
    add_number(
        machine,
        BuiltinValue::LocalInvocationIndex,
        inputs.local_invocation_index,
    )?;
    add_number(
        machine,
        BuiltinValue::SubgroupInvocationId,
        inputs.subgroup_invocation_id,
    )?;
    add_number(machine, BuiltinValue::SubgroupSize, inputs.subgroup_size)?;
    add(
        machine,
        BuiltinValue::FrontFacing,
        inputs.front_facing.map(|b| LiteralInstance::Bool(b)),
    )?;
    add_triple(
        machine,
        BuiltinValue::LocalInvocationId,
        inputs.local_invocation_id,
    )?;
    add_triple(
        machine,
        BuiltinValue::GlobalInvocationId,
        inputs.global_invocation_id,
    )?;
    add_triple(machine, BuiltinValue::WorkgroupId, inputs.workgroup_id)?;
    add_triple(machine, BuiltinValue::NumWorkgroups, inputs.num_workgroups)?;
    add_located(machine, inputs)
}
