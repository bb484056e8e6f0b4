//! Attributes, extensions, and the parts of structures of WGSL's own.

/// The attributes of WGSL and of its extensions that the parser reads as custom ones.
static ATTRIBUTES: [&str; 19] = [
    "color",
    "input_attachment_index",
    "subgroup_size",
    "early_depth_test",
    "mesh",
    "task",
    "payload",
    "per_primitive",
    "per_vertex",
    "ray_generation",
    "any_hit",
    "closest_hit",
    "miss",
    "incoming_payload",
    "stride",
    "internal",
    "generic",
    "type",
    "test",
];

/// What `enable` names.
static EXTENSIONS: [&str; 5] = [
    "f16",
    "clip_distances",
    "dual_source_blending",
    "subgroups",
    "primitive_index",
];

/// What `requires` names.
static FEATURES: [&str; 18] = [
    "readonly_and_readwrite_storage_textures",
    "packed_4x8_integer_dot_product",
    "unrestricted_pointer_parameters",
    "pointer_composite_access",
    "uniform_buffer_standard_layout",
    "subgroup_id",
    "subgroup_uniformity",
    "texture_and_sampler_let",
    "texture_formats_tier1",
    "linear_indexing",
    "fragment_depth",
    "immediate_address_space",
    "buffer_view",
    "swizzle_assignment",
    "texel_buffers",
    "sized_binding_array",
    "filterable_float32",
    "subgroup_matrix",
];

/// The parts of structures of WGSL's own, and of those of its extensions.
static PARTS: [&str; 22] = [
    "fract",
    "whole",
    "exp",
    "old_value",
    "exchanged",
    "kind",
    "t",
    "instance_custom_data",
    "instance_index",
    "sbt_record_offset",
    "geometry_index",
    "primitive_index",
    "barycentrics",
    "front_face",
    "object_to_world",
    "world_to_object",
    "flags",
    "cull_mask",
    "t_min",
    "t_max",
    "origin",
    "dir",
];

fn is_among(name: &str, list: &[&str]) -> bool {
    for known in list {
        if *known == name {
            return true;
        }
    }
    false
}

/// Whether WGSL, or an extension of it, has an attribute of this name, beside those that the parser knows.
pub fn is_attribute(name: &str) -> bool {
    is_among(name, &ATTRIBUTES[..])
}

/// Whether `enable` may name this. Extensions of single compilers have a prefix.
pub fn is_extension(name: &str) -> bool {
    is_among(name, &EXTENSIONS[..]) || name.starts_with("chromium_") || name.starts_with("wgpu_")
}

/// Whether `requires` may name this.
pub fn is_feature(name: &str) -> bool {
    is_among(name, &FEATURES[..]) || name.starts_with("chromium_")
}

/// Whether a structure of WGSL's own, or of an extension, has a part of this name.
pub fn is_part(name: &str) -> bool {
    is_among(name, &PARTS[..])
}
