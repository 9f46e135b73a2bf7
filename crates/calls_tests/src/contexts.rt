//! Each call of a scope through the bound: what it shows, what it changes, and what a checkpoint and a restore make
//! of it.
use crate::plays::{leaves, plays};
use std::alloc::AllocError;

/// Two services with a value, a preimage and its history.
const TWO: &str = "1 balance 1000, 1 gratis 6, 1 value k 1, 1 preimage abc, 1 history abc 3 10,\
    2 balance 500, 2 value l 2";

#[test]
fn at_the_start_all_is_as_in_the_state(rt: HostRuntime) -> Result<(), AllocError> {
    plays(
        &rt,
        rt.alloc(),
        TWO,
        "start => done, 1: 1000 ones 7 8 6 9 3 120, 1 k \"1\", 1 l -, 1 abc \"abc\", 1 abc 3 [10], 2: 500 ones 7 8 0 9 1 36, 2 k -, 2 l \"2\", 2 abc -, 2 abc 3 -, 1318567118: -, 1318567118 k -, 1318567118 l -, 1318567118 abc -, 1318567118 abc 3 -, 1318567160: -, 1318567160 k -, 1318567160 l -, 1318567160 abc -, 1318567160 abc 3 -, transfers 0, yield -, provided, free 1318567118, service 1
        account 3 => 3: -
        value 3 k => 3 k -
        history 1 abc 4 => 1 abc 4 -
        history 1 ab 3 => 1 ab 3 -
        restore => done",
    )
}

#[test]
fn values_are_put_and_dropped(rt: HostRuntime) -> Result<(), AllocError> {
    plays(
        &rt,
        rt.alloc(),
        TWO,
        "put_value k 222 => done, 1: 1000 ones 7 8 6 9 3 122, 1 k \"222\"
        restore => done, 1: 1000 ones 7 8 6 9 3 120, 1 k \"1\"
        put_value k 222 => done, 1: 1000 ones 7 8 6 9 3 122, 1 k \"222\"
        put_value l => done, 1: 1000 ones 7 8 6 9 4 157, 1 l \"\"
        drop_value k => done, 1: 1000 ones 7 8 6 9 3 119, 1 k -
        drop_value k => done
        restore => done, 1: 1000 ones 7 8 6 9 3 120, 1 k \"1\", 1 l -
        drop_value k => done, 1: 1000 ones 7 8 6 9 2 84, 1 k -
        restore => done, 1: 1000 ones 7 8 6 9 3 120, 1 k \"1\"",
    )
}

#[test]
fn histories_and_preimages_are_set_and_dropped(rt: HostRuntime) -> Result<(), AllocError> {
    plays(
        &rt,
        rt.alloc(),
        TWO,
        "set_history abc 3 10 20 => done, 1 abc 3 [10, 20]
        restore => done, 1 abc 3 [10]
        drop_history abc 3 => done, 1: 1000 ones 7 8 6 9 1 36, 1 abc 3 -
        drop_history abc 3 => done
        set_history abc 3 => done, 1: 1000 ones 7 8 6 9 3 120, 1 abc 3 []
        set_history abc 4 5 6 7 => done, 1: 1000 ones 7 8 6 9 5 205
        history 1 abc 4 => 1 abc 4 [5, 6, 7]
        drop_preimage abc => done, 1 abc -
        drop_preimage abc => done
        restore => done, 1: 1000 ones 7 8 6 9 3 120, 1 abc \"abc\", 1 abc 3 [10]
        history 1 abc 4 => 1 abc 4 -
        drop_preimage abc => done, 1 abc -
        restore => done, 1 abc \"abc\"",
    )
}

#[test]
fn the_balance_and_the_code_are_set(rt: HostRuntime) -> Result<(), AllocError> {
    plays(
        &rt,
        rt.alloc(),
        TWO,
        "set_balance 77 => done, 1: 77 ones 7 8 6 9 3 120
        restore => done, 1: 1000 ones 7 8 6 9 3 120
        set_code sevens 30 40 => done, 1: 1000 sevens 30 40 6 9 3 120
        set_balance MAX => done, 1: 18446744073709551615 sevens 30 40 6 9 3 120
        restore => done, 1: 1000 ones 7 8 6 9 3 120",
    )
}

#[test]
fn accounts_are_added_and_removed(rt: HostRuntime) -> Result<(), AllocError> {
    plays(
        &rt,
        rt.alloc(),
        TWO,
        "add_account 300 => done, 1318567118: 300 zeros 0 0 0 0 0 0, free 1318567160
        remove_account 2 => done, 2: -, 2 l -
        remove_account 1318567118 => done, 1318567118: -
        add_account 400 => done, 1318567160: 400 zeros 0 0 0 0 0 0, free 1318567202
        restore => done, 2: 500 ones 7 8 0 9 1 36, 2 l \"2\", 1318567160: -, free 1318567118
        remove_account 2 => done, 2: -, 2 l -
        restore => done, 2: 500 ones 7 8 0 9 1 36, 2 l \"2\"",
    )
}

#[test]
fn what_is_issued_is_shown(rt: HostRuntime) -> Result<(), AllocError> {
    plays(
        &rt,
        rt.alloc(),
        TWO,
        "push_transfer 5 => done, transfers 1 1 2 5 20 9 9
        push_transfer 6 => done, transfers 2 1 2 6 20 9 9
        set_yield sevens => done, yield sevens
        set_yield abc => done, yield abc
        push_provided 2 abcd => done, provided 2 \"abcd\"
        push_provided 9 => done, provided 2 \"abcd\" 9 \"\"
        restore => done, transfers 0, yield -, provided
        push_transfer 7 => done, transfers 1 1 2 7 20 9 9
        restore => done, transfers 0
        set_yield abc => done, yield abc
        restore => done, yield -
        push_provided 2 a => done, provided 2 \"a\"
        restore => done, provided",
    )
}

#[test]
fn a_restore_gives_the_last_checkpoint_and_the_next_one_the_same(
    rt: HostRuntime,
) -> Result<(), AllocError> {
    plays(
        &rt,
        rt.alloc(),
        TWO,
        "push_transfer 9 => done, transfers 1 1 2 9 20 9 9
        push_provided 2 a => done, provided 2 \"a\"
        set_yield sevens => done, yield sevens
        add_account 300 => done, 1318567118: 300 zeros 0 0 0 0 0 0, free 1318567160
        checkpoint => done
        restore => done
        push_transfer 4 => done, transfers 2 1 2 4 20 9 9
        push_provided 2 b => done, provided 2 \"a\" 2 \"b\"
        set_yield abc => done, yield abc
        set_history abc 3 => done, 1 abc 3 []
        drop_preimage abc => done, 1 abc -
        set_code zeros 1 2 => done, 1: 1000 zeros 1 2 6 9 3 120
        remove_account 1318567118 => done, 1318567118: -
        restore => done, 1: 1000 ones 7 8 6 9 3 120, 1 abc \"abc\", 1 abc 3 [10], 1318567118: 300 zeros 0 0 0 0 0 0, transfers 1 1 2 9 20 9 9, yield sevens, provided 2 \"a\"
        restore => done
        drop_value k => done, 1: 1000 ones 7 8 6 9 2 84, 1 k -
        checkpoint => done
        checkpoint => done
        put_value k 1 => done, 1: 1000 ones 7 8 6 9 3 120, 1 k \"1\"
        restore => done, 1: 1000 ones 7 8 6 9 2 84, 1 k -",
    )
}

#[test]
fn a_number_is_free_that_no_service_has_or_had_at_the_start(
    rt: HostRuntime,
) -> Result<(), AllocError> {
    plays(
        &rt,
        rt.alloc(),
        "1 balance 1, 1318567118 balance 2, 1318567119 balance 3, 1318567162 balance 4",
        "free => free 1318567120
        remove_account 1318567118 => done, 1318567118: -
        free => free 1318567120
        add_account 5 => done, free 1318567163
        account 1318567120 => 1318567120: 5 zeros 0 0 0 0 0 0
        remove_account 1318567120 => done
        free => free 1318567163",
    )
}

#[test]
fn a_delta_has_what_was_changed(rt: HostRuntime) -> Result<(), AllocError> {
    leaves(
        &rt,
        rt.alloc(),
        "1 balance 1000, 2 balance 500, 3 balance 200",
        "put_value k 333 => done, 1: 1000 ones 7 8 0 9 1 38, 1 k \"333\"
        add_account 300 => done, 1318567118: 300 zeros 0 0 0 0 0 0, free 1318567160
        add_account 400 => done, 1318567160: 400 zeros 0 0 0 0 0 0, free 1318567202
        remove_account 1318567118 => done, 1318567118: -
        remove_account 3 => done
        remove_account 2 => done, 2: -
        set_balance 7 => done, 1: 7 ones 7 8 0 9 1 38
        push_transfer 8 => done, transfers 1 1 2 8 20 9 9
        set_yield sevens => done, yield sevens
        push_provided 2 ab => done, provided 2 \"ab\"",
        "1: 7 ones 7 8 0 9 1 38, added 1318567160: 400 zeros 0 0 0 0 0 0, removed [2, 3], transfers 1 1 2 8 20 9 9, yield sevens, provided 2 \"ab\"",
    )
}

#[test]
fn a_delta_is_that_of_the_context_now(rt: HostRuntime) -> Result<(), AllocError> {
    leaves(
        &rt,
        rt.alloc(),
        TWO,
        "add_account 300 => done, 1318567118: 300 zeros 0 0 0 0 0 0, free 1318567160
        remove_account 2 => done, 2: -, 2 l -
        push_transfer 8 => done, transfers 1 1 2 8 20 9 9
        restore => done, 2: 500 ones 7 8 0 9 1 36, 2 l \"2\", 1318567118: -, transfers 0, free 1318567118
        set_balance 7 => done, 1: 7 ones 7 8 6 9 3 120",
        "1: 7 ones 7 8 6 9 3 120, added, removed [], transfers 0, yield -, provided",
    )
}
