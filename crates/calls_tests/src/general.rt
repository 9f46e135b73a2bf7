//! Gas, fetch, lookup, read, info, and numbers that no call has. Each answer of a row of the table of calls, and
//! its edges.
use crate::plays::plays;
use std::alloc::AllocError;

/// Service 1 has a gratis, and keeps a value and a preimage; service 2 keeps a value; service 4 has the greatest
/// balance and gratis.
const SERVICES: &str = "1 balance 1000, 1 gratis 40, 1 value k xyz, 1 preimage abc,\
    2 balance 500, 2 value k z, 4 balance MAX, 4 gratis MAX";

#[test]
fn gas_and_numbers_without_a_call_cost_ten(rt: HostRuntime) -> Result<(), AllocError> {
    plays(
        &rt,
        rt.alloc(),
        SERVICES,
        "call gas 100 3 => go 90 gas 90
        call gas 10 3 => go 0 gas 0
        call gas 9 3 => unpaid gas 0
        call gas 0 3 => unpaid gas 0
        call unknown 100 3 => go WHAT gas 90
        call unknown 10 3 => go WHAT gas 0
        call unknown 9 3 => unpaid gas 0",
    )
}

#[test]
fn fetch_gives_each_kind(rt: HostRuntime) -> Result<(), AllocError> {
    plays(
        &rt,
        rt.alloc(),
        SERVICES,
        "call fetch 100 OUT 0 64 0 => go 64 gas 90 out [100, 0, 0, 0]
        at 69632 8 => 100
        at 69640 8 => 10
        at 69648 8 => 1
        at 69656 8 => 19200
        at 69664 8 => 4104
        at 69672 8 => 3072
        at 69680 8 => 128
        at 69688 8 => 4000000
        at 69696 8 => 0
        call fetch 100 OUT 0 32 1 => go 32 gas 90 out [9, 9, 9, 9]
        at 69656 8 => 651061555542690057
        at 69664 8 => 0
        call fetch 100 OUT 0 9 2 => go 3 gas 90 out [21, 22, 23, 0]
        call fetch-no-payload 100 OUT 0 9 2 => go NONE gas 90
        call fetch 100 OUT 0 9 3 0 => go 3 gas 90 out [4, 5, 6, 0]
        call fetch 100 OUT 0 9 3 1 => go 0 gas 90
        call fetch 100 OUT 0 9 3 2 => go 1 gas 90 out [7, 0, 0, 0]
        call fetch 100 OUT 0 9 3 3 => go NONE gas 90
        call fetch 100 OUT 0 9 3 4294967296 => go NONE gas 90
        call fetch 100 OUT 0 9 3 MAX => go NONE gas 90
        call fetch 100 OUT 0 9 4 => go 5 gas 90 out [3, 4, 5, 6]
        call fetch 100 OUT 1 9 4 => go 5 gas 90 out [4, 5, 6, 7]
        call fetch 100 OUT 0 9 5 => go NONE gas 90
        call fetch 100 OUT 0 9 4294967296 => go NONE gas 90
        call fetch 100 OUT 0 9 MAX => go NONE gas 90
        call fetch 10 OUT 0 9 5 => go NONE gas 0
        call fetch 9 OUT 0 9 5 => unpaid gas 0",
    )
}

#[test]
fn a_part_is_given_as_far_as_there_are_bytes(rt: HostRuntime) -> Result<(), AllocError> {
    plays(
        &rt,
        rt.alloc(),
        SERVICES,
        "call fetch 10 OUT 1 1 2 => go 3 gas 0 out [22, 0, 0, 0]
        call fetch 10 OUT 1 2 2 => go 3 gas 0 out [22, 23, 0, 0]
        call fetch 10 OUT 1 MAX 2 => go 3 gas 0 out [22, 23, 0, 0]
        call fetch 10 OUT 2 2 2 => go 3 gas 0 out [23, 0, 0, 0]
        call fetch 10 OUT 3 2 2 => go 3 gas 0
        call fetch 10 OUT 4 2 2 => go 3 gas 0
        call fetch 10 OUT MAX 2 2 => go 3 gas 0
        call fetch 10 OUT MAX MAX 2 => go 3 gas 0
        call fetch 10 OUT 0 0 2 => go 3 gas 0",
    )
}

#[test]
fn bytes_that_may_not_be_written_panic_where_there_is_a_value(
    rt: HostRuntime,
) -> Result<(), AllocError> {
    plays(
        &rt,
        rt.alloc(),
        SERVICES,
        "call fetch 10 LOCKED 0 1 1 => panic gas 0
        call fetch 10 LOCKED 31 1 1 => panic gas 0
        call fetch 10 73726 0 3 1 => panic gas 0
        call fetch 10 73726 0 2 1 => go 32 gas 0
        call fetch 10 73726 30 9 1 => go 32 gas 0
        call fetch 10 LOCKED 32 9 1 => go 32 gas 0
        call fetch 10 LOCKED 0 0 1 => go 32 gas 0
        call fetch 10 4294967296 0 0 1 => go 32 gas 0
        call fetch 10 4294967296 0 1 1 => panic gas 0
        call fetch 10 MAX 0 2 1 => panic gas 0
        call fetch 10 0 0 1 1 => panic gas 0
        call fetch 10 0 0 9 5 => go NONE gas 0
        call fetch-no-payload 10 LOCKED 0 9 2 => go NONE gas 0",
    )
}

#[test]
fn lookup_finds_preimages(rt: HostRuntime) -> Result<(), AllocError> {
    plays(
        &rt,
        rt.alloc(),
        SERVICES,
        "call lookup 100 1 ABC OUT 0 9 => go 3 gas 90 out [97, 98, 99, 0]
        call lookup 100 MAX ABC OUT 2 9 => go 3 gas 90 out [99, 0, 0, 0]
        call lookup 100 1 ABC OUT 3 9 => go 3 gas 90
        call lookup 100 2 ABC OUT 0 9 => go NONE gas 90
        call lookup 100 1 ZEROS OUT 0 9 => go NONE gas 90
        call lookup 100 3 ABC OUT 0 9 => go NONE gas 90
        call lookup 100 4294967297 ABC OUT 0 9 => go NONE gas 90
        call lookup 100 18446744073709551614 ABC OUT 0 9 => go NONE gas 90
        call lookup 100 3 ABC 0 0 9 => go NONE gas 90
        call lookup 100 1 77792 OUT 0 9 => go NONE gas 90
        call lookup 100 1 77793 OUT 0 9 => panic gas 90
        call lookup 100 3 0 OUT 0 9 => panic gas 90
        call lookup 10 1 ABC LOCKED 0 9 => panic gas 0
        call lookup 10 1 ABC LOCKED 3 9 => go 3 gas 0
        call lookup 10 1 ABC LOCKED 0 0 => go 3 gas 0
        call lookup 9 1 0 LOCKED 0 9 => unpaid gas 0",
    )
}

#[test]
fn read_finds_services_and_keys(rt: HostRuntime) -> Result<(), AllocError> {
    plays(
        &rt,
        rt.alloc(),
        SERVICES,
        "call read 100 1 K 1 OUT 0 9 => go 3 gas 90 out [120, 121, 122, 0]
        call read 100 MAX K 1 OUT 2 9 => go 3 gas 90 out [122, 0, 0, 0]
        call read 100 2 K 1 OUT 0 9 => go 1 gas 90 out [122, 0, 0, 0]
        call read 100 3 K 1 OUT 0 9 => go NONE gas 90
        call read 100 4294967297 K 1 OUT 0 9 => go NONE gas 90
        call read 100 4294967296 K 1 OUT 0 9 => go NONE gas 90
        call read 100 1 L 1 OUT 0 9 => go NONE gas 90
        call read 100 1 K 2 OUT 0 9 => go NONE gas 90
        call read 100 1 K 0 OUT 0 9 => go NONE gas 90
        call read 100 1 0 0 OUT 0 9 => go NONE gas 90
        call read 100 1 L 1 0 0 9 => go NONE gas 90
        call read 100 1 77823 1 OUT 0 9 => go NONE gas 90
        call read 100 1 77823 2 OUT 0 9 => panic gas 90
        call read 100 3 0 1 OUT 0 9 => panic gas 90
        call read 100 1 K MAX OUT 0 9 => panic gas 90
        call read 10 1 K 1 LOCKED 0 9 => panic gas 0
        call read 10 1 K 1 LOCKED 3 9 => go 3 gas 0
        call read 10 1 K 1 LOCKED 0 0 => go 3 gas 0
        call read 9 1 0 1 LOCKED 0 9 => unpaid gas 0",
    )
}

#[test]
fn info_tells_an_account(rt: HostRuntime) -> Result<(), AllocError> {
    // The code hash; balance, threshold, the least gas of both entries, octets, items, gratis; the slot of making.
    plays(
        &rt,
        rt.alloc(),
        SERVICES,
        "call info 100 1 OUT 0 100 => go 92 gas 90 out [1, 1, 1, 1]
        at 69656 8 => 72340172838076673
        at 69664 8 => 1000
        at 69672 8 => 108
        at 69680 8 => 7
        at 69688 8 => 8
        at 69696 8 => 38
        at 69704 8 => 1
        at 69712 8 => 40
        at 69720 4 => 9
        at 69724 8 => 0
        call info 100 2 OUT 40 100 => go 92 gas 90 out [146, 0, 0, 0]
        call info 100 4 OUT 32 100 => go 92 gas 90 out [255, 255, 255, 255]
        at 69632 8 => 18446744073709551615
        at 69640 8 => 0
        at 69680 8 => 18446744073709551615
        call info 100 MAX OUT 0 33 => go 92 gas 90 out [1, 1, 1, 1]
        at 69664 8 => 232",
    )
}

#[test]
fn info_answers_as_its_row_says(rt: HostRuntime) -> Result<(), AllocError> {
    plays(
        &rt,
        rt.alloc(),
        SERVICES,
        "call info 100 3 OUT 0 100 => go NONE gas 90
        call info 100 3 0 0 100 => go NONE gas 90
        call info 100 4294967297 OUT 0 100 => go NONE gas 90
        call info 100 1 OUT 92 100 => go 92 gas 90
        call info 100 1 OUT MAX 100 => go 92 gas 90
        call info 10 1 LOCKED 91 1 => panic gas 0
        call info 10 1 LOCKED 92 1 => go 92 gas 0
        call info 10 1 LOCKED 0 0 => go 92 gas 0
        call info 9 1 LOCKED 0 100 => unpaid gas 0",
    )
}
