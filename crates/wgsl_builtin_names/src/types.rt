//! The types, type generators and enumerants of WGSL, and those of extensions.

use crate::word::{Choice, TYPE_COUNT, Word, WordKind};

/// The types, type generators and enumerants.
pub(crate) static TYPES: [Word; TYPE_COUNT] = [
    Word {
        name: "bool",
        kind: WordKind::Scalar,
    },
    Word {
        name: "i32",
        kind: WordKind::Scalar,
    },
    Word {
        name: "u32",
        kind: WordKind::Scalar,
    },
    Word {
        name: "f32",
        kind: WordKind::Scalar,
    },
    Word {
        name: "f16",
        kind: WordKind::Scalar,
    },
    Word {
        name: "i64",
        kind: WordKind::Scalar,
    },
    Word {
        name: "u64",
        kind: WordKind::Scalar,
    },
    Word {
        name: "f64",
        kind: WordKind::Scalar,
    },
    Word {
        name: "i16",
        kind: WordKind::Scalar,
    },
    Word {
        name: "u16",
        kind: WordKind::Scalar,
    },
    Word {
        name: "i8",
        kind: WordKind::Scalar,
    },
    Word {
        name: "u8",
        kind: WordKind::Scalar,
    },
    Word {
        name: "vec2",
        kind: WordKind::Vector {
            size: 2,
            is_generator: true,
        },
    },
    Word {
        name: "vec2i",
        kind: WordKind::Vector {
            size: 2,
            is_generator: false,
        },
    },
    Word {
        name: "vec2u",
        kind: WordKind::Vector {
            size: 2,
            is_generator: false,
        },
    },
    Word {
        name: "vec2f",
        kind: WordKind::Vector {
            size: 2,
            is_generator: false,
        },
    },
    Word {
        name: "vec2h",
        kind: WordKind::Vector {
            size: 2,
            is_generator: false,
        },
    },
    Word {
        name: "vec3",
        kind: WordKind::Vector {
            size: 3,
            is_generator: true,
        },
    },
    Word {
        name: "vec3i",
        kind: WordKind::Vector {
            size: 3,
            is_generator: false,
        },
    },
    Word {
        name: "vec3u",
        kind: WordKind::Vector {
            size: 3,
            is_generator: false,
        },
    },
    Word {
        name: "vec3f",
        kind: WordKind::Vector {
            size: 3,
            is_generator: false,
        },
    },
    Word {
        name: "vec3h",
        kind: WordKind::Vector {
            size: 3,
            is_generator: false,
        },
    },
    Word {
        name: "vec4",
        kind: WordKind::Vector {
            size: 4,
            is_generator: true,
        },
    },
    Word {
        name: "vec4i",
        kind: WordKind::Vector {
            size: 4,
            is_generator: false,
        },
    },
    Word {
        name: "vec4u",
        kind: WordKind::Vector {
            size: 4,
            is_generator: false,
        },
    },
    Word {
        name: "vec4f",
        kind: WordKind::Vector {
            size: 4,
            is_generator: false,
        },
    },
    Word {
        name: "vec4h",
        kind: WordKind::Vector {
            size: 4,
            is_generator: false,
        },
    },
    Word {
        name: "mat2x2",
        kind: WordKind::Matrix {
            columns: 2,
            rows: 2,
            is_generator: true,
        },
    },
    Word {
        name: "mat2x2f",
        kind: WordKind::Matrix {
            columns: 2,
            rows: 2,
            is_generator: false,
        },
    },
    Word {
        name: "mat2x2h",
        kind: WordKind::Matrix {
            columns: 2,
            rows: 2,
            is_generator: false,
        },
    },
    Word {
        name: "mat2x3",
        kind: WordKind::Matrix {
            columns: 2,
            rows: 3,
            is_generator: true,
        },
    },
    Word {
        name: "mat2x3f",
        kind: WordKind::Matrix {
            columns: 2,
            rows: 3,
            is_generator: false,
        },
    },
    Word {
        name: "mat2x3h",
        kind: WordKind::Matrix {
            columns: 2,
            rows: 3,
            is_generator: false,
        },
    },
    Word {
        name: "mat2x4",
        kind: WordKind::Matrix {
            columns: 2,
            rows: 4,
            is_generator: true,
        },
    },
    Word {
        name: "mat2x4f",
        kind: WordKind::Matrix {
            columns: 2,
            rows: 4,
            is_generator: false,
        },
    },
    Word {
        name: "mat2x4h",
        kind: WordKind::Matrix {
            columns: 2,
            rows: 4,
            is_generator: false,
        },
    },
    Word {
        name: "mat3x2",
        kind: WordKind::Matrix {
            columns: 3,
            rows: 2,
            is_generator: true,
        },
    },
    Word {
        name: "mat3x2f",
        kind: WordKind::Matrix {
            columns: 3,
            rows: 2,
            is_generator: false,
        },
    },
    Word {
        name: "mat3x2h",
        kind: WordKind::Matrix {
            columns: 3,
            rows: 2,
            is_generator: false,
        },
    },
    Word {
        name: "mat3x3",
        kind: WordKind::Matrix {
            columns: 3,
            rows: 3,
            is_generator: true,
        },
    },
    Word {
        name: "mat3x3f",
        kind: WordKind::Matrix {
            columns: 3,
            rows: 3,
            is_generator: false,
        },
    },
    Word {
        name: "mat3x3h",
        kind: WordKind::Matrix {
            columns: 3,
            rows: 3,
            is_generator: false,
        },
    },
    Word {
        name: "mat3x4",
        kind: WordKind::Matrix {
            columns: 3,
            rows: 4,
            is_generator: true,
        },
    },
    Word {
        name: "mat3x4f",
        kind: WordKind::Matrix {
            columns: 3,
            rows: 4,
            is_generator: false,
        },
    },
    Word {
        name: "mat3x4h",
        kind: WordKind::Matrix {
            columns: 3,
            rows: 4,
            is_generator: false,
        },
    },
    Word {
        name: "mat4x2",
        kind: WordKind::Matrix {
            columns: 4,
            rows: 2,
            is_generator: true,
        },
    },
    Word {
        name: "mat4x2f",
        kind: WordKind::Matrix {
            columns: 4,
            rows: 2,
            is_generator: false,
        },
    },
    Word {
        name: "mat4x2h",
        kind: WordKind::Matrix {
            columns: 4,
            rows: 2,
            is_generator: false,
        },
    },
    Word {
        name: "mat4x3",
        kind: WordKind::Matrix {
            columns: 4,
            rows: 3,
            is_generator: true,
        },
    },
    Word {
        name: "mat4x3f",
        kind: WordKind::Matrix {
            columns: 4,
            rows: 3,
            is_generator: false,
        },
    },
    Word {
        name: "mat4x3h",
        kind: WordKind::Matrix {
            columns: 4,
            rows: 3,
            is_generator: false,
        },
    },
    Word {
        name: "mat4x4",
        kind: WordKind::Matrix {
            columns: 4,
            rows: 4,
            is_generator: true,
        },
    },
    Word {
        name: "mat4x4f",
        kind: WordKind::Matrix {
            columns: 4,
            rows: 4,
            is_generator: false,
        },
    },
    Word {
        name: "mat4x4h",
        kind: WordKind::Matrix {
            columns: 4,
            rows: 4,
            is_generator: false,
        },
    },
    Word {
        name: "array",
        kind: WordKind::Array,
    },
    Word {
        name: "binding_array",
        kind: WordKind::Array,
    },
    Word {
        name: "ptr",
        kind: WordKind::Pointer,
    },
    Word {
        name: "atomic",
        kind: WordKind::Atomic,
    },
    Word {
        name: "sampler",
        kind: WordKind::Sampler,
    },
    Word {
        name: "sampler_comparison",
        kind: WordKind::Sampler,
    },
    Word {
        name: "texture_1d",
        kind: WordKind::Texture {
            dimensions: 1,
            is_depth: false,
            is_generator: true,
        },
    },
    Word {
        name: "texture_2d",
        kind: WordKind::Texture {
            dimensions: 2,
            is_depth: false,
            is_generator: true,
        },
    },
    Word {
        name: "texture_2d_array",
        kind: WordKind::Texture {
            dimensions: 2,
            is_depth: false,
            is_generator: true,
        },
    },
    Word {
        name: "texture_3d",
        kind: WordKind::Texture {
            dimensions: 3,
            is_depth: false,
            is_generator: true,
        },
    },
    Word {
        name: "texture_cube",
        kind: WordKind::Texture {
            dimensions: 2,
            is_depth: false,
            is_generator: true,
        },
    },
    Word {
        name: "texture_cube_array",
        kind: WordKind::Texture {
            dimensions: 2,
            is_depth: false,
            is_generator: true,
        },
    },
    Word {
        name: "texture_multisampled_2d",
        kind: WordKind::Texture {
            dimensions: 2,
            is_depth: false,
            is_generator: true,
        },
    },
    Word {
        name: "texture_depth_2d",
        kind: WordKind::Texture {
            dimensions: 2,
            is_depth: true,
            is_generator: false,
        },
    },
    Word {
        name: "texture_depth_2d_array",
        kind: WordKind::Texture {
            dimensions: 2,
            is_depth: true,
            is_generator: false,
        },
    },
    Word {
        name: "texture_depth_cube",
        kind: WordKind::Texture {
            dimensions: 2,
            is_depth: true,
            is_generator: false,
        },
    },
    Word {
        name: "texture_depth_cube_array",
        kind: WordKind::Texture {
            dimensions: 2,
            is_depth: true,
            is_generator: false,
        },
    },
    Word {
        name: "texture_depth_multisampled_2d",
        kind: WordKind::Texture {
            dimensions: 2,
            is_depth: true,
            is_generator: false,
        },
    },
    Word {
        name: "texture_external",
        kind: WordKind::Texture {
            dimensions: 2,
            is_depth: false,
            is_generator: false,
        },
    },
    Word {
        name: "texture_storage_1d",
        kind: WordKind::StorageTexture(1),
    },
    Word {
        name: "texture_storage_2d",
        kind: WordKind::StorageTexture(2),
    },
    Word {
        name: "texture_storage_2d_array",
        kind: WordKind::StorageTexture(2),
    },
    Word {
        name: "texture_storage_3d",
        kind: WordKind::StorageTexture(3),
    },
    Word {
        name: "acceleration_structure",
        kind: WordKind::Other,
    },
    Word {
        name: "ray_query",
        kind: WordKind::Other,
    },
    Word {
        name: "RayDesc",
        kind: WordKind::Other,
    },
    Word {
        name: "RayIntersection",
        kind: WordKind::Other,
    },
    Word {
        name: "input_attachment",
        kind: WordKind::Other,
    },
    Word {
        name: "buffer",
        kind: WordKind::Other,
    },
    Word {
        name: "texel_buffer",
        kind: WordKind::Other,
    },
    Word {
        name: "resource_table",
        kind: WordKind::Other,
    },
    Word {
        name: "subgroup_matrix_left",
        kind: WordKind::Other,
    },
    Word {
        name: "subgroup_matrix_right",
        kind: WordKind::Other,
    },
    Word {
        name: "subgroup_matrix_result",
        kind: WordKind::Other,
    },
    Word {
        name: "coop_mat8x8",
        kind: WordKind::Other,
    },
    Word {
        name: "coop_mat16x16",
        kind: WordKind::Other,
    },
    Word {
        name: "function",
        kind: WordKind::Enumerant(Choice::AddressSpace),
    },
    Word {
        name: "private",
        kind: WordKind::Enumerant(Choice::AddressSpace),
    },
    Word {
        name: "workgroup",
        kind: WordKind::Enumerant(Choice::AddressSpace),
    },
    Word {
        name: "uniform",
        kind: WordKind::Enumerant(Choice::AddressSpace),
    },
    Word {
        name: "storage",
        kind: WordKind::Enumerant(Choice::AddressSpace),
    },
    Word {
        name: "push_constant",
        kind: WordKind::Enumerant(Choice::AddressSpace),
    },
    Word {
        name: "immediate",
        kind: WordKind::Enumerant(Choice::AddressSpace),
    },
    Word {
        name: "pixel_local",
        kind: WordKind::Enumerant(Choice::AddressSpace),
    },
    Word {
        name: "task_payload",
        kind: WordKind::Enumerant(Choice::AddressSpace),
    },
    Word {
        name: "ray_payload",
        kind: WordKind::Enumerant(Choice::AddressSpace),
    },
    Word {
        name: "incoming_ray_payload",
        kind: WordKind::Enumerant(Choice::AddressSpace),
    },
    Word {
        name: "read",
        kind: WordKind::Enumerant(Choice::AccessMode),
    },
    Word {
        name: "write",
        kind: WordKind::Enumerant(Choice::AccessMode),
    },
    Word {
        name: "read_write",
        kind: WordKind::Enumerant(Choice::AccessMode),
    },
    Word {
        name: "r8unorm",
        kind: WordKind::Enumerant(Choice::TexelFormat),
    },
    Word {
        name: "r8snorm",
        kind: WordKind::Enumerant(Choice::TexelFormat),
    },
    Word {
        name: "r8uint",
        kind: WordKind::Enumerant(Choice::TexelFormat),
    },
    Word {
        name: "r8sint",
        kind: WordKind::Enumerant(Choice::TexelFormat),
    },
    Word {
        name: "r16unorm",
        kind: WordKind::Enumerant(Choice::TexelFormat),
    },
    Word {
        name: "r16snorm",
        kind: WordKind::Enumerant(Choice::TexelFormat),
    },
    Word {
        name: "r16uint",
        kind: WordKind::Enumerant(Choice::TexelFormat),
    },
    Word {
        name: "r16sint",
        kind: WordKind::Enumerant(Choice::TexelFormat),
    },
    Word {
        name: "r16float",
        kind: WordKind::Enumerant(Choice::TexelFormat),
    },
    Word {
        name: "rg8unorm",
        kind: WordKind::Enumerant(Choice::TexelFormat),
    },
    Word {
        name: "rg8snorm",
        kind: WordKind::Enumerant(Choice::TexelFormat),
    },
    Word {
        name: "rg8uint",
        kind: WordKind::Enumerant(Choice::TexelFormat),
    },
    Word {
        name: "rg8sint",
        kind: WordKind::Enumerant(Choice::TexelFormat),
    },
    Word {
        name: "r32uint",
        kind: WordKind::Enumerant(Choice::TexelFormat),
    },
    Word {
        name: "r32sint",
        kind: WordKind::Enumerant(Choice::TexelFormat),
    },
    Word {
        name: "r32float",
        kind: WordKind::Enumerant(Choice::TexelFormat),
    },
    Word {
        name: "rg16unorm",
        kind: WordKind::Enumerant(Choice::TexelFormat),
    },
    Word {
        name: "rg16snorm",
        kind: WordKind::Enumerant(Choice::TexelFormat),
    },
    Word {
        name: "rg16uint",
        kind: WordKind::Enumerant(Choice::TexelFormat),
    },
    Word {
        name: "rg16sint",
        kind: WordKind::Enumerant(Choice::TexelFormat),
    },
    Word {
        name: "rg16float",
        kind: WordKind::Enumerant(Choice::TexelFormat),
    },
    Word {
        name: "rgba8unorm",
        kind: WordKind::Enumerant(Choice::TexelFormat),
    },
    Word {
        name: "rgba8snorm",
        kind: WordKind::Enumerant(Choice::TexelFormat),
    },
    Word {
        name: "rgba8uint",
        kind: WordKind::Enumerant(Choice::TexelFormat),
    },
    Word {
        name: "rgba8sint",
        kind: WordKind::Enumerant(Choice::TexelFormat),
    },
    Word {
        name: "bgra8unorm",
        kind: WordKind::Enumerant(Choice::TexelFormat),
    },
    Word {
        name: "rgb10a2uint",
        kind: WordKind::Enumerant(Choice::TexelFormat),
    },
    Word {
        name: "rgb10a2unorm",
        kind: WordKind::Enumerant(Choice::TexelFormat),
    },
    Word {
        name: "rg11b10ufloat",
        kind: WordKind::Enumerant(Choice::TexelFormat),
    },
    Word {
        name: "r64uint",
        kind: WordKind::Enumerant(Choice::TexelFormat),
    },
    Word {
        name: "rg32uint",
        kind: WordKind::Enumerant(Choice::TexelFormat),
    },
    Word {
        name: "rg32sint",
        kind: WordKind::Enumerant(Choice::TexelFormat),
    },
    Word {
        name: "rg32float",
        kind: WordKind::Enumerant(Choice::TexelFormat),
    },
    Word {
        name: "rgba16unorm",
        kind: WordKind::Enumerant(Choice::TexelFormat),
    },
    Word {
        name: "rgba16snorm",
        kind: WordKind::Enumerant(Choice::TexelFormat),
    },
    Word {
        name: "rgba16uint",
        kind: WordKind::Enumerant(Choice::TexelFormat),
    },
    Word {
        name: "rgba16sint",
        kind: WordKind::Enumerant(Choice::TexelFormat),
    },
    Word {
        name: "rgba16float",
        kind: WordKind::Enumerant(Choice::TexelFormat),
    },
    Word {
        name: "rgba32uint",
        kind: WordKind::Enumerant(Choice::TexelFormat),
    },
    Word {
        name: "rgba32sint",
        kind: WordKind::Enumerant(Choice::TexelFormat),
    },
    Word {
        name: "rgba32float",
        kind: WordKind::Enumerant(Choice::TexelFormat),
    },
];
