//! Checkpoint, new, upgrade, transfer, eject and yield. Each answer of a row of the table of calls, and its edges.
use crate::plays::plays;
use std::alloc::AllocError;

#[test]
fn new_makes_a_service_that_its_maker_pays_for(rt: HostRuntime) -> Result<(), AllocError> {
    plays(
        &rt,
        rt.alloc(),
        "1 balance 4294968000, 2 balance 0",
        "slot 12 => done
        call new 10 SEVENS 4294967296 30 40 => go HUH gas 0
        call new 10 SEVENS MAX 30 40 => go HUH gas 0
        call new 10 SEVENS 4294967295 30 40 => go 1318567118 gas 0, 1: 504 ones 7 8 0 9 0 0, 1318567118: 4294967496 sevens 30 40 0 12 2 4294967376, free 1318567160
        history 1318567118 sevens 4294967295 => 1318567118 sevens 4294967295 []
        call new 10 SEVENS 204 30 40 => go CASH gas 0
        call new 10 SEVENS 203 MAX 41 => go 1318567160 gas 0, 1: 100 ones 7 8 0 9 0 0, 1318567160: 404 sevens 18446744073709551615 41 0 12 2 284, free 1318567202
        history 1318567160 sevens 203 => 1318567160 sevens 203 []
        call new 10 SEVENS 0 30 40 => go CASH gas 0
        call new 10 SEVENS 4294967296 30 40 => go HUH gas 0
        call new 10 77793 4294967296 30 40 => panic gas 0
        call new 9 77793 0 30 40 => unpaid gas 0",
    )
}

#[test]
fn new_passes_over_numbers_that_are_taken(rt: HostRuntime) -> Result<(), AllocError> {
    plays(
        &rt,
        rt.alloc(),
        "1 balance 1000, 1318567118 balance 5, 1318567119 balance 5, 1318567162 balance 5",
        "call new 10 ABC 0 => go 1318567120 gas 0, 1: 799 ones 7 8 0 9 0 0, free 1318567163
        account 1318567120 => 1318567120: 201 abc 0 0 0 1 2 81",
    )
}

#[test]
fn what_is_left_must_carry_the_deposits(rt: HostRuntime) -> Result<(), AllocError> {
    let refused = [
        "1 balance 200",
        "1 balance 300",
        "1 balance 347, 1 value k 12",
        "1 balance 260, 1 gratis 40",
    ];
    for start in refused {
        let script = "call new 100 SEVENS 0 => go CASH gas 90";
        plays(&rt, rt.alloc(), start, script)?;
    }
    plays(
        &rt,
        rt.alloc(),
        "1 balance 261, 1 gratis 40",
        "call new 100 SEVENS 0 => go 1318567118 gas 90, 1: 60 ones 7 8 40 9 0 0, 1318567118: 201 sevens 0 0 0 1 2 81, free 1318567160",
    )
}

#[test]
fn each_answer_of_transfer_costs_its_gas(rt: HostRuntime) -> Result<(), AllocError> {
    plays(
        &rt,
        rt.alloc(),
        "1 balance 150, 2 balance 0",
        "call transfer 100 3 999 7 TEXT => go WHO gas 83
        call transfer 100 4294967298 5 20 TEXT => go WHO gas 70
        call transfer 100 2 999 7 TEXT => go LOW gas 83
        call transfer 100 2 51 8 TEXT => go CASH gas 82
        call transfer 100 2 MAX 8 TEXT => go CASH gas 82
        call transfer 100 3 5 20 77697 => panic gas 70
        call transfer 29 2 5 20 77697 => unpaid gas 0
        call transfer 9 2 5 0 TEXT => unpaid gas 0
        call transfer MAX 2 5 MAX TEXT => unpaid gas 0
        call transfer MAX 2 5 18446744073709551606 TEXT => unpaid gas 0
        call transfer MAX 2 5 18446744073709551605 TEXT => go 0 gas 0, 1: 145 ones 7 8 0 9 0 0, transfers 1 1 2 5 18446744073709551605 97 120
        call transfer 30 2 45 20 K => go 0 gas 0, 1: 100 ones 7 8 0 9 0 0, transfers 2 1 2 45 20 107 118
        call transfer 18 2 1 8 TEXT => go CASH gas 0
        call transfer 18 2 0 8 77696 => go 0 gas 0, transfers 3 1 2 0 8 0 0
        call transfer 18 MAX 0 8 TEXT => go 0 gas 0, transfers 4 1 1 0 8 97 120
        call transfer 17 1 0 7 TEXT => go LOW gas 0",
    )
}

/// Service 2 is given up to service 1, and its only history was forgotten at slot 20.
const GIVEN_UP: &str = "1 balance 1000, 2 balance 300, 2 code to-1, 2 history zeros 5 10 20";

#[test]
fn eject_takes_a_service_that_is_given_up_and_empty(rt: HostRuntime) -> Result<(), AllocError> {
    plays(
        &rt,
        rt.alloc(),
        GIVEN_UP,
        "slot 19220 => done
        call eject 100 2 ZEROS => go HUH gas 90
        slot 19221 => done
        call eject 100 3 ZEROS => go WHO gas 90
        call eject 100 4294967298 ZEROS => go WHO gas 90
        call eject 100 1 ZEROS => go WHO gas 90
        call eject 100 MAX ZEROS => go WHO gas 90
        call eject 100 2 SEVENS => go HUH gas 90
        call eject 100 3 77793 => panic gas 90
        call eject 9 2 77793 => unpaid gas 0
        call eject 10 2 ZEROS => go 0 gas 0, 1: 1300 ones 7 8 0 9 0 0, 2: -
        call eject 10 2 ZEROS => go WHO gas 0",
    )
}

#[test]
fn eject_takes_no_service_that_keeps_more_or_less(rt: HostRuntime) -> Result<(), AllocError> {
    let starts = [
        "1 balance 0, 2 code to-1",
        "1 balance 0, 2 code to-1, 2 history zeros 5",
        "1 balance 0, 2 code to-1, 2 history zeros 5 10",
        "1 balance 0, 2 code to-1, 2 history zeros 5 10 20 30",
        "1 balance 0, 2 code to-1, 2 history zeros 5 10 20, 2 value k v",
        "1 balance 0, 2 code to-1, 2 history zeros 5 10 20, 2 history zeros 6 10 20",
        "1 balance 0, 2 code to-1, 2 value k v, 2 value l v",
        "1 balance 0, 2 code to-1, 2 value k 1234567890, 2 value l 1234567890",
    ];
    for start in starts {
        plays(
            &rt,
            rt.alloc(),
            start,
            "slot 20000 => done
            call eject 100 2 ZEROS => go HUH gas 90",
        )?;
    }
    Ok(())
}

#[test]
fn eject_takes_no_service_that_is_not_given_up_and_not_the_own_one(
    rt: HostRuntime,
) -> Result<(), AllocError> {
    plays(
        &rt,
        rt.alloc(),
        "1 code to-1, 1 history zeros 5 10 20, 2 code ones, 2 history zeros 5 10 20",
        "slot 20000 => done
        call eject 100 2 ZEROS => go WHO gas 90
        call eject 100 1 ZEROS => go WHO gas 90
        call eject 100 MAX ZEROS => go WHO gas 90",
    )
}

#[test]
fn eject_gives_at_most_the_greatest_balance(rt: HostRuntime) -> Result<(), AllocError> {
    plays(
        &rt,
        rt.alloc(),
        "1 balance 18446744073709551315, 2 balance 301, 2 code to-1, 2 history zeros 5 10 20",
        "slot 4294967295 => done
        call eject 100 2 ZEROS => go 0 gas 90, 1: 18446744073709551615 ones 7 8 0 9 0 0, 2: -",
    )
}

#[test]
fn upgrade_yield_and_checkpoint_change_the_context(rt: HostRuntime) -> Result<(), AllocError> {
    plays(
        &rt,
        rt.alloc(),
        "1 balance 0, 2 balance 0",
        "call upgrade 100 SEVENS 30 40 => go 0 gas 90, 1: 0 sevens 30 40 0 9 0 0
        call yield 10 ABC => go 0 gas 0, yield abc
        call checkpoint 50 => go 40 gas 40
        call yield 10 SEVENS => go 0 gas 0, yield sevens
        call upgrade 10 ABC MAX 0 => go 0 gas 0, 1: 0 abc 18446744073709551615 0 0 9 0 0
        restore => done, 1: 0 sevens 30 40 0 9 0 0, yield abc
        call upgrade 100 77793 30 40 => panic gas 90
        call yield 100 77793 => panic gas 90
        call upgrade 9 SEVENS 31 41 => unpaid gas 0
        call yield 9 SEVENS => unpaid gas 0
        call checkpoint 10 => go 0 gas 0
        call checkpoint 9 => unpaid gas 0",
    )
}

#[test]
fn an_unpaid_checkpoint_saves_nothing(rt: HostRuntime) -> Result<(), AllocError> {
    plays(
        &rt,
        rt.alloc(),
        "1 balance 0",
        "call yield 10 ABC => go 0 gas 0, yield abc
        call checkpoint 9 => unpaid gas 0
        restore => done, yield -",
    )
}
