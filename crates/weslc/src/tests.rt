//! Tests of the calls of the library. Where a request for memory may be refused, they answer so, change nothing, and made again answer what
//! they should; and what no bundle shows: what a source map maps back, and mangled names that are read back.

mod answer;
mod calls;
mod given;
mod maps;
mod mounts;
mod play;
mod trees;
mod workspace;
