//! The texts of refusals, as callers may show them.
use blob_decode::ProgramRefusal;
use paged_memory::{Access, StoreRefusal};
use std::alloc::{AllocError, Global};

fn text_of_program(alloc: Global, refusal: ProgramRefusal) -> Result<String, AllocError> {
    format!(in alloc; "{refusal}")
}

fn text_of_access(alloc: Global, refusal: Access) -> Result<String, AllocError> {
    format!(in alloc; "{refusal}")
}

fn text_of_store(alloc: Global, refusal: StoreRefusal) -> Result<String, AllocError> {
    format!(in alloc; "{refusal}")
}

#[test]
fn refused_programs_as_text(rt: HostRuntime) -> Result<(), AllocError> {
    let place = text_of_program(rt.alloc(), ProgramRefusal::NotProgram { place: 13 })?;
    assert!(rt; place.as_str() == "not a program blob at byte 13");
    let memory = text_of_program(rt.alloc(), ProgramRefusal::NoMemory)?;
    assert!(rt; memory.as_str() == "out of memory");
    Ok(())
}

#[test]
fn refused_accesses_as_text(rt: HostRuntime) -> Result<(), AllocError> {
    let low = text_of_access(rt.alloc(), Access::Low)?;
    assert!(rt; low.as_str() == "an address below 65536");
    let fault = text_of_access(rt.alloc(), Access::Fault(69_632))?;
    assert!(rt; fault.as_str() == "a page fault at 69632");
    let stored = text_of_store(rt.alloc(), StoreRefusal::Access(Access::Fault(69_632)))?;
    assert!(rt; stored.as_str() == "a page fault at 69632");
    let memory = text_of_store(rt.alloc(), StoreRefusal::NoMemory)?;
    assert!(rt; memory.as_str() == "out of memory");
    Ok(())
}
