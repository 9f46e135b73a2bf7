//! The worked examples of host calls.
use crate::plays::plays;
use std::alloc::AllocError;

#[test]
fn write_against_balance(rt: HostRuntime) -> Result<(), AllocError> {
    plays(
        &rt,
        rt.alloc(),
        "1 balance 150, 1 value k 1",
        "call write 100 K 1 TEXT 5 => go 1 gas 90, 1: 150 ones 7 8 0 9 1 40, 1 k \"abcde\"
        call write 100 K 1 TEXT 6 => go FULL gas 90
        call write 100 K 1 TEXT 0 => go 5 gas 90, 1: 150 ones 7 8 0 9 0 0, 1 k -",
    )
}

#[test]
fn gratis_threshold(rt: HostRuntime) -> Result<(), AllocError> {
    plays(
        &rt,
        rt.alloc(),
        "1 balance 150, 1 gratis 40, 2 gratis 1000",
        "call write 100 K 1 TEXT 46 => go FULL gas 90
        call write 100 K 1 TEXT 45 => go NONE gas 90, 1: 150 ones 7 8 40 9 1 80, 1 k \"abcdefghijklmnopqrstuvwxyzabcdefghijklmnopqrs\"
        call info 100 2 OUT 0 92 => go 92 gas 90 out [1, 1, 1, 1]
        at 69672 8 => 0",
    )
}

#[test]
fn general_call_answers(rt: HostRuntime) -> Result<(), AllocError> {
    // With a history of "abc" the threshold is 204, and 309 with one more of 4 bytes.
    plays(
        &rt,
        rt.alloc(),
        "1 balance 308, 1 history abc 3 10 20",
        "call fetch 100 OUT 0 64 0 => go 64 gas 90 out [100, 0, 0, 0]
        call fetch 100 OUT 0 64 5 => go NONE gas 90
        call lookup 100 1 ABC OUT 0 9 => go NONE gas 90
        call info 100 MAX OUT 0 92 => go 92 gas 90 out [1, 1, 1, 1]
        call yield 100 SEVENS => go 0 gas 90, yield sevens
        call upgrade 100 SEVENS 5 6 => go 0 gas 90, 1: 308 sevens 5 6 0 9 2 84
        call query 100 ABC 3 => go 42949672962 r8 20 gas 90
        call solicit 100 ABC 4 => go FULL gas 90",
    )
}

#[test]
fn transfer_answers(rt: HostRuntime) -> Result<(), AllocError> {
    plays(
        &rt,
        rt.alloc(),
        "1 balance 150, 2 balance 0",
        "call transfer 100 3 5 20 TEXT => go WHO gas 70
        call transfer 100 2 5 7 TEXT => go LOW gas 83
        call transfer 100 2 51 20 TEXT => go CASH gas 70
        call transfer 100 2 5 20 GAP => panic gas 70",
    )
}

#[test]
fn equal_candidates_new_against_the_balance(rt: HostRuntime) -> Result<(), AllocError> {
    let refused = "call new 100 SEVENS 0 => go CASH gas 90";
    plays(&rt, rt.alloc(), "1 balance 201", refused)?;
    plays(
        &rt,
        rt.alloc(),
        "1 balance 301",
        "slot 5 => done
        call new 100 SEVENS 0 => go 1318567118 gas 90, 1: 100 ones 7 8 0 9 0 0, 1318567118: 201 sevens 0 0 0 5 2 81, free 1318567160",
    )
}

#[test]
fn restore_to_checkpoint(rt: HostRuntime) -> Result<(), AllocError> {
    plays(
        &rt,
        rt.alloc(),
        "1 balance 1000, 2 balance 500",
        "put_value k 1 => done, 1: 1000 ones 7 8 0 9 1 36, 1 k \"1\"
        checkpoint => done
        add_account 300 => done, 1318567118: 300 zeros 0 0 0 0 0 0, free 1318567160
        remove_account 2 => done, 2: -
        set_balance 7 => done, 1: 7 ones 7 8 0 9 1 36
        push_transfer 8 => done, transfers 1 1 2 8 20 9 9
        set_yield sevens => done, yield sevens
        restore => done, 1: 1000 ones 7 8 0 9 1 36, 2: 500 ones 7 8 0 9 0 0, 1318567118: -, transfers 0, yield -, free 1318567118",
    )
}

#[test]
fn solicit_query(rt: HostRuntime) -> Result<(), AllocError> {
    plays(
        &rt,
        rt.alloc(),
        "1 balance 1000",
        "slot 30 => done
        call solicit 95 ZEROS 5 => go 0 gas 85, 1: 1000 ones 7 8 0 9 2 86
        call query 84 ZEROS 5 => go 0 r8 0 gas 74
        history 1 zeros 5 => 1 zeros 5 []",
    )
}

#[test]
fn provide(rt: HostRuntime) -> Result<(), AllocError> {
    plays(
        &rt,
        rt.alloc(),
        "1 balance 1000, 1 history abc 3",
        "slot 9 => done
        call provide 96 1 TEXT 3 => go 0 gas 86, provided 1 \"abc\"
        call provide 86 1 TEXT 3 => go HUH gas 76",
    )
}
