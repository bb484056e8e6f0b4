//! The names that WGSL declares.

ghost use Rattle.std.specs.Prelude.{◌≡◌, IsTrue, ◌↔◌};
ghost use Rattle.std.specs.List.{Contains};
ghost use Rattle.wgsl_words.specs.Names.{is_in, texts};
ghost use Rattle.wgsl_words.specs.Builtin.{builtin_names, other_types};

/// Whether a name is in a table.
pub fn is_known(name: &str, table: &[&str]) -> bool
    ensures { result ≡ is_in name.now (texts table.now) }
{
    for known in table {
        if name == *known {
            return true;
        }
    }
    false
}

/// How many types and type generators have values that are computed. They come first in the table.
const VALUE_TYPE_COUNT: usize = 14;

/// How many other types and type generators there are. They come next.
const OTHER_TYPE_COUNT: usize = 55;

/// How many names WGSL declares.
pub const BUILTIN_COUNT: usize = 94;

/// The predeclared types, type generators and enumerants of WGSL.
pub static BUILTIN_NAMES: [&str; BUILTIN_COUNT] = [
    "bool",
    "i32",
    "u32",
    "vec2",
    "vec3",
    "vec4",
    "vec2i",
    "vec2u",
    "vec3i",
    "vec3u",
    "vec4i",
    "vec4u",
    "array",
    "ptr",
    "f32",
    "f16",
    "vec2f",
    "vec2h",
    "vec3f",
    "vec3h",
    "vec4f",
    "vec4h",
    "mat2x2",
    "mat2x3",
    "mat2x4",
    "mat3x2",
    "mat3x3",
    "mat3x4",
    "mat4x2",
    "mat4x3",
    "mat4x4",
    "mat2x2f",
    "mat2x2h",
    "mat2x3f",
    "mat2x3h",
    "mat2x4f",
    "mat2x4h",
    "mat3x2f",
    "mat3x2h",
    "mat3x3f",
    "mat3x3h",
    "mat3x4f",
    "mat3x4h",
    "mat4x2f",
    "mat4x2h",
    "mat4x3f",
    "mat4x3h",
    "mat4x4f",
    "mat4x4h",
    "atomic",
    "sampler",
    "sampler_comparison",
    "texture_1d",
    "texture_2d",
    "texture_2d_array",
    "texture_3d",
    "texture_cube",
    "texture_cube_array",
    "texture_multisampled_2d",
    "texture_depth_multisampled_2d",
    "texture_external",
    "texture_storage_1d",
    "texture_storage_2d",
    "texture_storage_2d_array",
    "texture_storage_3d",
    "texture_depth_2d",
    "texture_depth_2d_array",
    "texture_depth_cube",
    "texture_depth_cube_array",
    "function",
    "private",
    "workgroup",
    "uniform",
    "storage",
    "read",
    "write",
    "read_write",
    "rgba8unorm",
    "rgba8snorm",
    "rgba8uint",
    "rgba8sint",
    "rgba16uint",
    "rgba16sint",
    "rgba16float",
    "r32uint",
    "r32sint",
    "r32float",
    "rg32uint",
    "rg32sint",
    "rg32float",
    "rgba32uint",
    "rgba32sint",
    "rgba32float",
    "bgra8unorm",
];

/// The table of the names that WGSL declares.
pub fn builtin_names() -> &'static [&'static str]
    ensures { texts result.now ≡ builtin_names }
{
    &BUILTIN_NAMES[..]
}

/// The types and type generators whose values aren't computed: floats, matrices, atomics, samplers and textures.
pub fn other_types() -> &'static [&'static str]
    ensures { texts result.now ≡ other_types }
{
    &BUILTIN_NAMES[VALUE_TYPE_COUNT..VALUE_TYPE_COUNT + OTHER_TYPE_COUNT]
}

/// Whether WGSL declares a name.
pub fn is_builtin_name(name: &str) -> bool
    ensures { IsTrue result ↔ Contains builtin_names name.now }
{
    is_known(name, builtin_names())
}
