ghost use Rattle.std.specs.Prelude.{◌≡◌, ◌≢◌, ℕ, ◌+◌, ◌^◌, ◌<◌, ◌≤◌, ◌⊎◌, [], length, vec_len, Some, IfOk, IfErr, IfSome, OnOk};
ghost use Rattle.pm_io.specs.declared.stand.Stand.TheVariants as stand;
ghost use Rattle.pm_io.specs.declared.read.ReadOut.TheVariants as answer;
ghost use Rattle.pm_io.specs.Counts.{Rose};
ghost use Rattle.pm_io.specs.Reading.{IsCause, stand_left};

use crate::fault::IoFault;
use crate::files::Files;
use pm_values::Txt;
use std::alloc::{AllocError, Global};

/// Why a file was not read.
#[derive(Clone, Copy, Debug, PartialEq, Eq)]
pub enum ReadOut {
    /// There is no file of this name.
    Absent,
    /// A begin or a read failed.
    Failed,
    /// The file is longer than the limit.
    TooLong,
    /// There was no memory for the bytes.
    Memory,
}

impl From<IoFault> for ReadOut {
    ghost from_gives = { λ _ out. out ≡ answer.Failed };

    fn from(_fault: IoFault) -> Self {
        ReadOut::Failed
    }
}

impl From<AllocError> for ReadOut {
    ghost from_gives = { λ _ out. out ≡ answer.Memory };

    fn from(_error: AllocError) -> Self {
        ReadOut::Memory
    }
}

/// The most bytes that one read asks for.
const CHUNK: usize = 65536;

/// The bytes of a whole file, of which there are at most `limit`.
///
/// The name is begun once. Where memory is refused, the file has lost what was read.
pub fn read_whole<F: Files>(
    alloc: Global,
    files: &mut F,
    name: Txt,
    limit: u64,
) -> Result<Vec<u8>, ReadOut>
    requires { limit ≤ 2 ^ 32 }
    ensures held { F.held files.new ≡ F.held files.old }
    ensures last { F.last files.new ≡ name }
    ensures stand { F.stand files.new ≡ stand_left result }
    ensures faults { F.faults files.old ≤ F.faults files.new }
    ensures absences { F.absences files.old ≤ F.absences files.new }

    // the whole file, read to its end
    ensures whole { IfOk result (λ bytes. IfSome (F.held files.old) (λ held. held name ≡ Some bytes.items)) }
    ensures at_end { OnOk result (IfSome (F.rest files.new) (λ left. left ≡ [])) }
    ensures length { IfOk result (λ bytes. F.taken files.new ≡ vec_len bytes) }
    ensures within { IfOk result (λ bytes. vec_len bytes ≤ limit) }

    // when each other answer comes
    ensures absent { result ≡ Err answer.Absent → Rose (F.absences files.old) (F.absences files.new) }
    ensures failed { result ≡ Err answer.Failed → Rose (F.faults files.old) (F.faults files.new) }
    ensures too_long { result ≡ Err answer.TooLong → F.taken files.new ≡ limit + 1 }
    ensures only_too_long { F.taken files.new ≡ limit + 1
        → (result ≡ Err answer.TooLong) ⊎ (result ≡ Err answer.Memory) }
    ensures cause { IfErr result (λ out. IfSome (F.held files.old) (λ held. IsCause (held name) limit out)) }
{
    if files.begin(name)? {
        read_on(alloc, files, limit)
    } else {
        Err(ReadOut::Absent)
    }
}

/// What is left of the file that was begun, of which nothing was read.
fn read_on<F: Files>(alloc: Global, files: &mut F, limit: u64) -> Result<Vec<u8>, ReadOut>
    requires limit { limit ≤ 2 ^ 32 }
    requires open { F.stand files.old ≡ stand.Open }
    requires none_read { F.taken files.old ≡ 0 }
    ensures held { F.held files.new ≡ F.held files.old }
    ensures last { F.last files.new ≡ F.last files.old }
    ensures stand { F.stand files.new ≡ stand_left result }
    ensures faults { F.faults files.old ≤ F.faults files.new }
    ensures absences { F.absences files.old ≤ F.absences files.new }

    ensures whole { IfOk result (λ bytes. IfSome (F.rest files.old) (λ left. left ≡ bytes.items)) }
    ensures at_end { OnOk result (IfSome (F.rest files.new) (λ left. left ≡ [])) }
    ensures length { IfOk result (λ bytes. F.taken files.new ≡ vec_len bytes) }
    ensures within { IfOk result (λ bytes. vec_len bytes ≤ limit) }

    ensures present { result ≢ Err answer.Absent }
    ensures failed { result ≡ Err answer.Failed → Rose (F.faults files.old) (F.faults files.new) }
    ensures too_long { result ≡ Err answer.TooLong → F.taken files.new ≡ limit + 1 }
    ensures only_too_long { F.taken files.new ≡ limit + 1
        → (result ≡ Err answer.TooLong) ⊎ (result ≡ Err answer.Memory) }
    ensures longer { result ≡ Err answer.TooLong → IfSome (F.rest files.old) (λ left. limit < length left) }
{
    let mut bytes = Vec::new(alloc);
    let mut chunk = [0; CHUNK];
    while bytes.len() as u64 <= limit {
        let room = CHUNK.min(limit as usize + 1 - bytes.len());
        let n = files.read(&mut chunk[..room])?;
        if n == 0 {
            return Ok(bytes);
        }
        bytes.extend_from_slice(&chunk[..n])?;
    }
    Err(ReadOut::TooLong)
}
