//! Query, solicit, forget and provide. Each answer of a row of the table of calls, and its edges.
use crate::plays::plays;
use std::alloc::AllocError;

#[test]
fn query_tells_a_history_in_two_words(rt: HostRuntime) -> Result<(), AllocError> {
    plays(
        &rt,
        rt.alloc(),
        "1 history abc 3, 1 history abc 4 10, 1 history abc 5 10 20, 1 history abc 6 10 20 30, 2 history abc 7 1",
        "call query 10 ABC 3 => go 0 r8 0 gas 0
        call query 10 ABC 4 => go 42949672961 r8 0 gas 0
        call query 10 ABC 5 => go 42949672962 r8 20 gas 0
        call query 10 ABC 6 => go 42949672963 r8 128849018900 gas 0
        call query 10 ABC 7 => go NONE r8 0 gas 0
        call query 10 ZEROS 3 => go NONE r8 0 gas 0
        call query 10 ABC 4294967295 => go NONE r8 0 gas 0
        call query 10 ABC 4294967299 => go NONE r8 0 gas 0
        call query 10 77793 3 => panic gas 0
        call query 9 77793 3 => unpaid gas 0",
    )
}

#[test]
fn solicit_asks_where_the_balance_carries_it(rt: HostRuntime) -> Result<(), AllocError> {
    let alloc = rt.alloc();
    let asks = "call solicit 10 ABC 4 => go 0 gas 0, 1: 309 ones 7 8 0 9 4 169
        history 1 abc 4 => 1 abc 4 []";
    plays(&rt, alloc, "1 balance 309, 1 history abc 3 10 20", asks)?;
    let full = "call solicit 10 ABC 4 => go FULL gas 0";
    plays(&rt, alloc, "1 balance 308, 1 history abc 3 10 20", full)?;
    let again = "slot 30 => done
        call solicit 10 ABC 3 => go 0 gas 0, 1 abc 3 [10, 20, 30]";
    plays(&rt, alloc, "1 balance 204, 1 history abc 3 10 20", again)?;
    let full = "call solicit 10 ABC 3 => go FULL gas 0";
    plays(&rt, alloc, "1 balance 203, 1 history abc 3 10 20", full)?;
    let balance = "1 balance 4294967600, 1 history abc 3 10";
    plays(
        &rt,
        alloc,
        balance,
        "call solicit 10 ABC 4294967296 => go HUH gas 0
        call solicit 10 ABC 4294967295 => go 0 gas 0, 1: 4294967600 ones 7 8 0 9 4 4294967460
        call query 10 ABC 4294967295 => go 0 r8 0 gas 0
        call forget 10 ABC 4294967296 => go HUH gas 0
        call forget 10 ABC 4294967295 => go 0 gas 0, 1: 4294967600 ones 7 8 0 9 2 84",
    )
}

#[test]
fn solicit_goes_by_the_history_before_the_balance(rt: HostRuntime) -> Result<(), AllocError> {
    plays(
        &rt,
        rt.alloc(),
        "1 balance 0, 1 history abc 3, 1 history abc 4 10, 1 history abc 5 10 20 25",
        "call solicit 10 ABC 3 => go HUH gas 0
        call solicit 10 ABC 4 => go HUH gas 0
        call solicit 10 ABC 5 => go HUH gas 0
        call solicit 10 ABC 4294967296 => go HUH gas 0
        call solicit 10 ABC 6 => go FULL gas 0
        call solicit 10 77793 4294967296 => panic gas 0
        call solicit 9 77793 3 => unpaid gas 0",
    )
}

#[test]
fn forget_goes_by_the_history(rt: HostRuntime) -> Result<(), AllocError> {
    let alloc = rt.alloc();
    let never = "call forget 10 ABC 3 => go 0 gas 0, 1: 0 ones 7 8 0 9 0 0, 1 abc -, 1 abc 3 -
        call forget 10 ABC 3 => go HUH gas 0";
    plays(&rt, alloc, "1 preimage abc, 1 history abc 3", never)?;
    let since = "slot 4294967295 => done
        call forget 10 ABC 4 => go HUH gas 0
        call forget 10 ABC 4294967299 => go HUH gas 0
        call forget 10 ZEROS 3 => go HUH gas 0
        call forget 10 77793 3 => panic gas 0
        call forget 9 ABC 3 => unpaid gas 0
        call forget 10 ABC 3 => go 0 gas 0, 1 abc 3 [10, 4294967295]
        call forget 10 ABC 3 => go HUH gas 0";
    plays(&rt, alloc, "1 preimage abc, 1 history abc 3 10", since)?;
    let no_longer = "slot 19220 => done
        call forget 10 ABC 3 => go HUH gas 0
        slot 19221 => done
        call forget 10 ABC 3 => go 0 gas 0, 1: 0 ones 7 8 0 9 0 0, 1 abc -, 1 abc 3 -";
    plays(
        &rt,
        alloc,
        "1 preimage abc, 1 history abc 3 10 20",
        no_longer,
    )?;
    let again = "slot 19220 => done
        call forget 10 ABC 3 => go HUH gas 0
        slot 19221 => done
        call forget 10 ABC 3 => go 0 gas 0, 1 abc 3 [30, 19221]";
    plays(
        &rt,
        alloc,
        "1 preimage abc, 1 history abc 3 10 20 30",
        again,
    )
}

#[test]
fn a_history_that_is_dropped_takes_the_preimage_of_its_hash_along(
    rt: HostRuntime,
) -> Result<(), AllocError> {
    plays(
        &rt,
        rt.alloc(),
        "1 preimage abc, 1 history abc 3 10, 1 history abc 4",
        "call forget 10 ABC 4 => go 0 gas 0, 1: 0 ones 7 8 0 9 2 84, 1 abc -",
    )
}

#[test]
fn provide_takes_what_is_awaited_once(rt: HostRuntime) -> Result<(), AllocError> {
    plays(
        &rt,
        rt.alloc(),
        "1 history abc 3, 1 history ab 2 10, 1 history abcd 3, 2 history abc 3",
        "call provide 10 3 TEXT 3 => go WHO gas 0
        call provide 10 4294967297 TEXT 3 => go WHO gas 0
        call provide 10 1 TEXT 2 => go HUH gas 0
        call provide 10 1 TEXT 1 => go HUH gas 0
        call provide 10 1 TEXT 4 => go HUH gas 0
        call provide 10 1 TEXT 3 => go 0 gas 0, provided 1 \"abc\"
        call provide 10 1 TEXT 3 => go HUH gas 0
        call provide 10 MAX TEXT 3 => go HUH gas 0
        call provide 10 2 TEXT 3 => go 0 gas 0, provided 1 \"abc\" 2 \"abc\"
        call provide 10 2 TEXT 3 => go HUH gas 0
        call provide 10 3 77823 2 => panic gas 0
        call provide 9 3 77823 2 => unpaid gas 0
        restore => done, provided
        call provide 10 MAX TEXT 3 => go 0 gas 0, provided 1 \"abc\"
        call provide 10 1 TEXT 3 => go HUH gas 0",
    )
}
