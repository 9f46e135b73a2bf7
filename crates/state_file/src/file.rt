// States, as files.
ghost use Rattle.std.specs.Prelude.{◌≡◌, ◌++◌, true, OnOk, OnErr, IfOk};
ghost use Rattle.jam_codec.specs.Format.{Spells, from, natural_where};
ghost use Rattle.jam_codec.specs.Laws.{Longest, SpellsNone};
ghost use Rattle.jam_codec.specs.Reading.{Reads};
ghost use Rattle.jam_codec.specs.Refusal.{place_of, IfMalformed};
ghost use Rattle.jam_accounts.specs.Accounts.{is_version};
ghost use Rattle.state_file.specs.StateFile.{state_format};
ghost use Rattle.state_file.specs.StateLaws.{state_laws};

use crate::account::{read_accounts, write_accounts};
use jam_accounts::{State, version_of};
use jam_codec::{Cursor, FileRefusal, push_fixed, push_natural};
use jam_fields::{Field, read_file};
use std::alloc::{AllocError, Global};
use std::marker::Model;

/// A state, as a field.
#[derive(Drop)]
struct Content {
    state: State,
}

impl Model for Content {
    ghost use Rattle.jam_accounts.specs.Accounts.{State};
    ghost use Rattle.jam_accounts.specs.Coded.{coded_state};

    ghost Value = { State };

    ghost coded = { coded_state };

    ghost view = { λ c. c.state };
}

fn read_version(cursor: &mut Cursor<'_>) -> Result<u32, FileRefusal>
    ensures exact { Reads place_of (λ x. x) result cursor.new ((natural_where is_version).read cursor.old) }
    ensures known { IfOk result (λ version. is_version version ≡ true) }
{
    let place = cursor.place();
    match version_of(cursor.natural()?) {
        Some(version) => Ok(version),
        None => Err(FileRefusal::Malformed { place }),
    }
}

impl Field for Content {
    ghost format = { state_format };

    fn read(alloc: Global, cursor: &mut Cursor<'_>) -> Result<Content, FileRefusal> {
        let mut ahead = cursor.ahead();
        let version = read_version(&mut ahead)?;
        let slot = ahead.fixed(4)? as u32;
        let mut entropy = [0; 32];
        entropy.copy_from_slice(ahead.bytes(32)?);
        let accounts = read_accounts(alloc, &mut ahead, version)?;
        *cursor = ahead;
        Ok(Content {
            state: State {
                version,
                slot,
                entropy,
                accounts,
            },
        })
    }

    ghost is_format = { state_laws };
}

impl Content {
    fn into_state(self) -> State
        ensures { result ≡ self }
    {
        self.state
    }
}

/// The state that all the bytes spell. Its version is the first field, and says which fields its
/// accounts have.
///
/// # Errors
/// `Malformed` where they spell none: at the first field that does not spell, or after the state
/// where bytes are left. `NoMemory`.
pub fn read_state(alloc: Global, bytes: &[u8]) -> Result<State, FileRefusal>
    ensures found { IfOk result (λ state. Spells state_format state bytes.now) }
    ensures refused { IfMalformed result (λ place. SpellsNone state_format bytes.now) }
    ensures place { IfMalformed result (λ place. Longest state_format.Run (from 0 bytes.now) place) }
{
    let content: Content = read_file(alloc, bytes)?;
    Ok(content.into_state())
}

fn push_state(state: &State, out: &mut Vec<u8>) -> Result<(), AllocError>
    ensures ok { OnOk result (out.new.items ≡ out.old.items ++ state_format.spell state.now) }
    ensures fits { OnOk result (state_format.Fits state.now) }
{
    push_natural(out, u64::from(state.version))?;
    push_fixed(out, 4, u64::from(state.slot))?;
    out.extend_from_slice(&state.entropy)?;
    write_accounts(&state.accounts, state.version, out)
}

/// The bytes that spell the state, by its version.
///
/// # Errors
/// Want of memory.
pub fn write_state(alloc: Global, state: &State) -> Result<Vec<u8>, AllocError>
    ensures { IfOk result (λ bytes. Spells state_format state.now bytes.items) }
{
    let mut out = Vec::new(alloc);
    push_state(state, &mut out)?;
    Ok(out)
}
