//! Write, against the memory and the balance.
use crate::plays::plays;
use std::alloc::AllocError;

#[test]
fn a_value_is_put_in_place_of_another_and_dropped(rt: HostRuntime) -> Result<(), AllocError> {
    plays(
        &rt,
        rt.alloc(),
        "1 balance 1000, 2 balance 0, 2 value k 1",
        "call write 100 K 1 TEXT 3 => go NONE gas 90, 1: 1000 ones 7 8 0 9 1 38, 1 k \"abc\"
        call write 100 L 1 K 1 => go NONE gas 90, 1: 1000 ones 7 8 0 9 2 74, 1 l \"k\"
        call write 100 K 1 TEXT 1 => go 3 gas 90, 1: 1000 ones 7 8 0 9 2 72, 1 k \"a\"
        call write 100 K 1 0 0 => go 1 gas 90, 1: 1000 ones 7 8 0 9 1 36, 1 k -
        call write 100 K 1 0 0 => go NONE gas 90
        call write 100 0 0 TEXT 2 => go NONE gas 90, 1: 1000 ones 7 8 0 9 2 72
        value 1 k => 1 k -
        call write 100 0 0 TEXT 0 => go 2 gas 90, 1: 1000 ones 7 8 0 9 1 36
        call write 10 L 1 TEXT 1 => go 1 gas 0, 1 l \"a\"",
    )
}

#[test]
fn key_and_value_must_be_readable(rt: HostRuntime) -> Result<(), AllocError> {
    plays(
        &rt,
        rt.alloc(),
        "1 balance 1000",
        "call write 100 0 1 TEXT 1 => panic gas 90
        call write 100 77823 2 TEXT 1 => panic gas 90
        call write 100 4294967296 1 TEXT 1 => panic gas 90
        call write 100 K MAX TEXT 1 => panic gas 90
        call write 100 K 1 77823 2 => panic gas 90
        call write 100 K 1 GAP 1 => panic gas 90
        call write 100 K 1 TEXT MAX => panic gas 90
        call write 10 K 1 GAP 0 => go NONE gas 0
        call write 10 77823 1 TEXT 1 => go NONE gas 0, 1: 1000 ones 7 8 0 9 1 36
        call write 9 0 1 TEXT 1 => unpaid gas 0
        call write 9 K 1 TEXT 1 => unpaid gas 0",
    )
}

#[test]
fn a_drop_is_refused_where_the_balance_is_too_low_after_it(
    rt: HostRuntime,
) -> Result<(), AllocError> {
    let drops = "call write 100 K 1 TEXT 0 => go FULL gas 90";
    plays(&rt, rt.alloc(), "1 balance 99, 1 value k 1", drops)?;
    plays(
        &rt,
        rt.alloc(),
        "1 balance 100, 1 value k 1",
        "call write 100 K 1 TEXT 0 => go 1 gas 90, 1: 100 ones 7 8 0 9 0 0, 1 k -",
    )
}
