// Programs, each with the bytes that spell it, under the digests of these bytes.
ghost use Rattle.std.specs.Prelude.{◌≡◌, ◌≤◌, ℕ, IfOk, IfErr, IfSome, IsErrOf};
ghost use Rattle.jam_codec.specs.Format.{Spells};
ghost use Rattle.blob_decode.specs.Program.{program_blob};
ghost use Rattle.blob_decode.specs.Refusal.{IsPlaced};
ghost use Rattle.blake2b_core.specs.Blake2b.{digest};
ghost use Rattle.program_cache.specs.Cached.{IsCached, AreCached};

use blob_decode::{Program, ProgramRefusal};
use lru::LruCache;
use std::alloc::{AllocError, Global};
use std::marker::Model;
use std::num::NonZeroUsize;
use std::rc::Rc;

/// A program and the bytes that spell it.
#[derive(Drop)]
pub struct Cached {
    bytes: Vec<u8>,
    program: Rc<Program>,
}

/// The programs that were asked for last, up to a number of them. What it answers does not depend on what it keeps.
#[derive(Drop)]
pub struct Cache {
    alloc: Global,
    kept: LruCache<[u8; 32], Cached>,
}

impl Model for Cache {
    ghost use Rattle.program_cache.specs.Cached.{AreCached};

    ghost Value = { Unit {0} };

    ghost view = { λ _. tt };

    ghost invariant = { λ c. AreCached c.kept.entries };
}

impl Cache {
    /// A cache that keeps so many programs, and none yet.
    ///
    /// # Errors
    /// Want of memory.
    pub fn new(alloc: Global, capacity: usize) -> Result<Cache, AllocError>
        requires { 1 ≤ capacity }
    {
        let capacity = NonZeroUsize::new(capacity).unwrap();
        Ok(Cache {
            alloc,
            kept: LruCache::new(alloc, capacity)?,
        })
    }

    /// The program that a blob spells, as `Program::deblob` gives it. The digest of the blob is only where it is looked
    /// for: another blob that stands there is not taken for it.
    ///
    /// # Errors
    /// Those of `Program::deblob`; a blob that is refused is not kept.
    pub fn get(&mut self, hash: &[u8; 32], bytes: &[u8]) -> Result<Rc<Program>, ProgramRefusal>
        requires { hash.now ≡ digest bytes.now }
        ensures found { IfOk result (λ p. Spells program_blob p.value bytes.now) }
        ensures refused { (p : _) → Spells program_blob p bytes.now → (place : ℕ) → IsErrOf result (ProgramRefusal.NotProgram place) → ⊥ }
        ensures place { IfErr result (IsPlaced bytes.now) }
    {
        if let Some(program) = found(&mut self.kept, hash, bytes)? {
            return Ok(program);
        }
        let program = read(self.alloc, bytes)?;
        keep(self.alloc, &mut self.kept, hash, bytes, &program)?;
        Ok(program)
    }
}

// The program that these bytes spell, if it is kept. It is the last asked for then.
fn found(
    kept: &mut LruCache<[u8; 32], Cached>,
    hash: &[u8; 32],
    bytes: &[u8],
) -> Result<Option<Rc<Program>>, AllocError>
    requires { AreCached kept.old.entries }
    ensures kept { AreCached kept.new.entries }
    ensures value { IfOk result (λ o. IfSome o (λ p. Spells program_blob p.value bytes.now)) }
{
    let Some(program) = matching(kept, hash, bytes)? else {
        return Ok(None);
    };
    kept.promote(hash);
    Ok(Some(program))
}

fn matching(
    kept: &LruCache<[u8; 32], Cached>,
    hash: &[u8; 32],
    bytes: &[u8],
) -> Result<Option<Rc<Program>>, AllocError>
    requires { AreCached kept.now.entries }
    ensures { IfOk result (λ o. IfSome o (λ p. Spells program_blob p.value bytes.now)) }
{
    match kept.peek(hash) {
        Some(cached) => same(cached, bytes),
        None => Ok(None),
    }
}

// The program, where these are the bytes that it was read from.
fn same(cached: &Cached, bytes: &[u8]) -> Result<Option<Rc<Program>>, AllocError>
    requires { IsCached cached.now }
    ensures { IfOk result (λ o. IfSome o (λ p. Spells program_blob p.value bytes.now)) }
{
    if cached.bytes.as_slice() == bytes {
        Ok(Some(cached.program.clone()?))
    } else {
        Ok(None)
    }
}

fn shared(alloc: Global, program: Program) -> Result<Rc<Program>, AllocError>
    ensures { IfOk result (λ p. p.value ≡ program) }
{
    Ok(Rc::new(alloc, program)?)
}

fn read(alloc: Global, bytes: &[u8]) -> Result<Rc<Program>, ProgramRefusal>
    ensures found { IfOk result (λ p. Spells program_blob p.value bytes.now) }
    ensures refused { (p : _) → Spells program_blob p bytes.now → (place : ℕ) → IsErrOf result (ProgramRefusal.NotProgram place) → ⊥ }
    ensures place { IfErr result (IsPlaced bytes.now) }
{
    let program = Program::deblob(alloc, bytes)?;
    Ok(shared(alloc, program)?)
}

fn keep(
    alloc: Global,
    kept: &mut LruCache<[u8; 32], Cached>,
    hash: &[u8; 32],
    bytes: &[u8],
    program: &Rc<Program>,
) -> Result<(), AllocError>
    requires all { AreCached kept.old.entries }
    requires spelled { Spells program_blob program.now.value bytes.now }
    ensures { AreCached kept.new.entries }
{
    let cached = cached_of(alloc, bytes, program)?;
    kept.put(*hash, cached)?;
    Ok(())
}

fn cached_of(alloc: Global, bytes: &[u8], program: &Rc<Program>) -> Result<Cached, AllocError>
    requires { Spells program_blob program.now.value bytes.now }
    ensures { IfOk result IsCached }
{
    Ok(Cached {
        bytes: Vec::from_slice(alloc, bytes)?,
        program: program.clone()?,
    })
}
