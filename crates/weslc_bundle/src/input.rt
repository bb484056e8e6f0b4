//! Reading a bundle's bytes.

ghost use Rattle.std.specs.Prelude.{◌≡◌, IfOk, IfErr};
ghost use Rattle.weslc_bundle.specs.Served.{AreRead, AreTooMany, TakesFew};

use std::alloc::{AllocError, Global};
use std::io::{ErrorKind, Read};

/// How many bytes a bundle may have.
pub const MAX_BUNDLE_LEN: usize = 16_777_216;

/// Why there are no bytes.
#[derive(Clone, Copy)]
pub enum InputError {
    /// A read failed.
    Read,
    /// There are more bytes than a bundle may have.
    TooLong,
    /// Memory was refused.
    OutOfMemory,
}

impl From<AllocError> for InputError {
    ghost use Rattle.std.specs.Prelude.{◌≡◌};
    ghost use Rattle.weslc_bundle.specs.declared.input.InputError.TheVariants.{OutOfMemory};

    ghost from_gives = { λ _ e. e ≡ OutOfMemory };

    fn from(_: AllocError) -> InputError {
        InputError::OutOfMemory
    }
}

/// How many bytes are read at once.
const CHUNK_LEN: usize = 16_384;

/// Reads to the end, or to one byte more than a bundle may have.
pub fn read_input<R: Read>(alloc: Global, reader: &mut R) -> Result<Vec<u8>, InputError>
    ensures bytes { IfOk result (λ bytes. AreRead (R.remaining reader.old) bytes.items) }
    ensures long { IfErr result (λ e. e ≡ InputError.TooLong → AreTooMany (R.remaining reader.old)) }
    ensures few { TakesFew (R.remaining reader.old) (R.remaining reader.new) }
{
    let mut bytes = Vec::new(alloc);
    let mut chunk = [0u8; CHUNK_LEN];
    for _turn in 0..u64::MAX {
        let most = (MAX_BUNDLE_LEN + 1 - bytes.len()).min(CHUNK_LEN);
        match reader.read(&mut chunk[..most]) {
            Ok(0) => return Ok(bytes),
            Ok(count) => bytes.extend_from_slice(&chunk[..count])?,
            Err(error) => match error.kind() {
                ErrorKind::Interrupted => {}
                ErrorKind::OutOfMemory => return Err(InputError::OutOfMemory),
                _ => return Err(InputError::Read),
            },
        }
        if bytes.len() > MAX_BUNDLE_LEN {
            return Err(InputError::TooLong);
        }
    }
    Err(InputError::Read)
}
