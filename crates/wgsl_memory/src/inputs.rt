//! What a run of an entry point is handed for its parameters.

ghost use Rattle.std.specs.Prelude.{◌≡◌, [], ◌∷◌, Some, None, true};

use indexmap::IndexMap;
use std::alloc::Global;
use wgsl_instance::Instance;

/// The built-in values of an entry point (WGSL, "Built-in Values"), and the values at its locations. What isn't there is missing.
#[derive(Debug, Drop)]
pub struct Inputs {
    pub vertex_index: Option<u32>,
    pub instance_index: Option<u32>,
    pub sample_index: Option<u32>,
    pub sample_mask: Option<u32>,
    pub local_invocation_index: Option<u32>,
    pub subgroup_invocation_id: Option<u32>,
    pub subgroup_size: Option<u32>,
    pub front_facing: Option<bool>,
    pub local_invocation_id: Option<[u32; 3]>,
    pub global_invocation_id: Option<[u32; 3]>,
    pub workgroup_id: Option<[u32; 3]>,
    pub num_workgroups: Option<[u32; 3]>,
    /// The value at each location.
    pub user_defined: IndexMap<u32, Instance>,
}

impl Inputs {
    /// Nothing is there. It needs no memory.
    pub fn new(alloc: Global) -> Inputs
        ensures nothing { (result.vertex_index ≡ None) × (result.instance_index ≡ None) × (result.sample_index ≡ None) × (result.sample_mask ≡ None)
            × (result.local_invocation_index ≡ None) × (result.subgroup_invocation_id ≡ None) × (result.subgroup_size ≡ None) × (result.front_facing ≡ None)
            × (result.local_invocation_id ≡ None) × (result.global_invocation_id ≡ None) × (result.workgroup_id ≡ None) × (result.num_workgroups ≡ None) }
        ensures no_location { result.user_defined.entries ≡ [] }
    {
        Inputs {
            vertex_index: None,
            instance_index: None,
            sample_index: None,
            sample_mask: None,
            local_invocation_index: None,
            subgroup_invocation_id: None,
            subgroup_size: None,
            front_facing: None,
            local_invocation_id: None,
            global_invocation_id: None,
            workgroup_id: None,
            num_workgroups: None,
            user_defined: IndexMap::new(alloc),
        }
    }

    /// Each built-in value is zero, but that a front face is seen, that there is one workgroup, and that a subgroup has the size 4.
    /// There is no value at a location. It needs no memory.
    pub fn new_zero_initialized(alloc: Global) -> Inputs
        ensures zeros { (result.vertex_index ≡ Some 0) × (result.instance_index ≡ Some 0) × (result.sample_index ≡ Some 0) × (result.sample_mask ≡ Some 0)
            × (result.local_invocation_index ≡ Some 0) × (result.subgroup_invocation_id ≡ Some 0) }
        ensures size { result.subgroup_size ≡ Some 4 }
        ensures front { result.front_facing ≡ Some true }
        ensures triples { (result.local_invocation_id ≡ Some (0 ∷ 0 ∷ 0 ∷ [])) × (result.global_invocation_id ≡ Some (0 ∷ 0 ∷ 0 ∷ [])) × (result.workgroup_id ≡ Some (0 ∷ 0 ∷ 0 ∷ [])) }
        ensures one_group { result.num_workgroups ≡ Some (1 ∷ 1 ∷ 1 ∷ []) }
        ensures no_location { result.user_defined.entries ≡ [] }
    {
        Inputs {
            vertex_index: Some(0),
            instance_index: Some(0),
            sample_index: Some(0),
            sample_mask: Some(0),
            local_invocation_index: Some(0),
            subgroup_invocation_id: Some(0),
            subgroup_size: Some(4),
            front_facing: Some(true),
            local_invocation_id: Some([0; 3]),
            global_invocation_id: Some([0; 3]),
            workgroup_id: Some([0; 3]),
            num_workgroups: Some([1; 3]),
            user_defined: IndexMap::new(alloc),
        }
    }
}
