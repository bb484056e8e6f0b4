//! Equality of values.

ghost use Rattle.std.specs.Prelude.{◌≡◌};
ghost use Rattle.std.specs.Cmp.Lexicographic.{pointwise};
ghost use Rattle.wgsl_instance.specs.Alike as spec;

use crate::tree::{ArrayInstance, Instance, PtrInstance, RefInstance, StructInstance, VecInstance};

fn are_references_alike(a: &RefInstance, b: &RefInstance) -> bool
    ensures { result ≡ spec.same_reference a.now b.now }
{
    a.cell == b.cell
        && *a.path.as_slice() == *b.path.as_slice()
        && a.ty == b.ty
        && a.space == b.space
        && a.access == b.access
}

fn are_vectors_alike(a: &VecInstance, b: &VecInstance) -> bool
    ensures { result ≡ spec.same_vector a.now b.now }
{
    a.ty == b.ty && *a.components.as_slice() == *b.components.as_slice()
}

/// Whether two values are equal.
#[cycle(alike)]
#[tactic(auto, using(crate::specs::Equality::same_parts))]
fn are_alike(a: &Instance, b: &Instance) -> bool
    ensures { result ≡ spec.same a.now b.now }
{
    match a {
        Instance::Literal(x) => match b {
            Instance::Literal(y) => *x == *y,
            _ => false,
        },
        Instance::Struct(x) => match b {
            Instance::Struct(y) => are_structs_alike(x, y),
            _ => false,
        },
        Instance::Array(x) => match b {
            Instance::Array(y) => are_arrays_alike(x, y),
            _ => false,
        },
        Instance::Vec(x) => match b {
            Instance::Vec(y) => are_vectors_alike(x, y),
            _ => false,
        },
        Instance::Ptr(x) => match b {
            Instance::Ptr(y) => are_references_alike(&x.reference, &y.reference),
            _ => false,
        },
        Instance::Ref(x) => match b {
            Instance::Ref(y) => are_references_alike(x, y),
            _ => false,
        },
        Instance::Deferred(x) => match b {
            Instance::Deferred(y) => *x == *y,
            _ => false,
        },
    }
}

#[cycle(alike)]
fn are_structs_alike(a: &StructInstance, b: &StructInstance) -> bool
    ensures { result ≡ spec.same_struct spec.same a.now b.now }
{
    a.ty == b.ty && are_parts_alike(a.members.as_slice(), b.members.as_slice())
}

#[cycle(alike)]
fn are_arrays_alike(a: &ArrayInstance, b: &ArrayInstance) -> bool
    ensures { result ≡ spec.same_array spec.same a.now b.now }
{
    a.runtime_sized == b.runtime_sized
        && a.element == b.element
        && are_parts_alike(a.components.as_slice(), b.components.as_slice())
}

#[cycle(alike)]
fn are_parts_alike(a: &[Instance], b: &[Instance]) -> bool
    ensures { result ≡ pointwise spec.same a.now b.now }
{
    if a.len() != b.len() {
        return false;
    }
    for i in 0..a.len() {
        if !are_alike(&a[i], &b[i]) {
            return false;
        }
    }
    true
}

impl PartialEq for Instance {
    ghost use Rattle.std.specs.Cmp as Cmp;
    ghost use Rattle.wgsl_instance.specs.Equality.{same_equiv};

    ghost eq = { spec.same };

    ghost laws = { Cmp.partial_equiv_from_equiv same_equiv };

    fn eq(&self, other: &Instance) -> bool {
        are_alike(self, other)
    }
}

impl Eq for Instance {
    ghost use Rattle.wgsl_instance.specs.Equality.{same_equiv};

    ghost laws = { same_equiv };
}

impl PartialEq for RefInstance {
    ghost use Rattle.std.specs.Cmp as Cmp;
    ghost use Rattle.wgsl_instance.specs.Equality.{reference_equiv};

    ghost eq = { spec.same_reference };

    ghost laws = { Cmp.partial_equiv_from_equiv reference_equiv };

    fn eq(&self, other: &RefInstance) -> bool {
        are_references_alike(self, other)
    }
}

impl PartialEq for VecInstance {
    ghost use Rattle.std.specs.Cmp as Cmp;
    ghost use Rattle.wgsl_instance.specs.Equality.{vector_equiv};

    ghost eq = { spec.same_vector };

    ghost laws = { Cmp.partial_equiv_from_equiv vector_equiv };

    fn eq(&self, other: &VecInstance) -> bool {
        are_vectors_alike(self, other)
    }
}

impl PartialEq for StructInstance {
    ghost use Rattle.std.specs.Cmp as Cmp;
    ghost use Rattle.wgsl_instance.specs.Equality.{struct_equiv};

    ghost eq = { spec.same_struct spec.same };

    ghost laws = { Cmp.partial_equiv_from_equiv struct_equiv };

    fn eq(&self, other: &StructInstance) -> bool {
        are_structs_alike(self, other)
    }
}

impl PartialEq for ArrayInstance {
    ghost use Rattle.std.specs.Cmp as Cmp;
    ghost use Rattle.wgsl_instance.specs.Equality.{array_equiv};

    ghost eq = { spec.same_array spec.same };

    ghost laws = { Cmp.partial_equiv_from_equiv array_equiv };

    fn eq(&self, other: &ArrayInstance) -> bool {
        are_arrays_alike(self, other)
    }
}

impl PartialEq for PtrInstance {
    ghost use Rattle.std.specs.Cmp as Cmp;
    ghost use Rattle.wgsl_instance.specs.Equality.{pointer_equiv};

    ghost eq = { spec.same_pointer };

    ghost laws = { Cmp.partial_equiv_from_equiv pointer_equiv };

    fn eq(&self, other: &PtrInstance) -> bool {
        are_references_alike(&self.reference, &other.reference)
    }
}
