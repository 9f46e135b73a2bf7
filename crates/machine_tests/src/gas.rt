//! Gas that is charged, lent and given back, and what it is charged for.
use gas_ledger::{Ledger, Schedule};
use std::process::Abort;

#[test]
fn gas_is_charged_and_lent(rt: HostRuntime) {
    let mut ledger = Ledger::new(10);
    assert!(rt; !ledger.charge(11));
    assert_eq!(rt; ledger.left(), 10);
    assert!(rt; ledger.charge(4));
    assert_eq!(rt; ledger.left(), 6);
    let mut inner = ledger.take_inner(9);
    assert_eq!(rt; (inner.left(), ledger.left()), (6, 0));
    assert!(rt; inner.charge(2));
    ledger.return_inner(inner);
    assert_eq!(rt; ledger.left(), 4);
    ledger.exhaust();
    assert_eq!(rt; ledger.left(), 0);
}

const FORMS: [u8; 13] = [1, 2, 3, 4, 5, 6, 7, 8, 9, 10, 255, 12, 13];

const CALLS: [u16; 28] = [
    10, 11, 12, 13, 14, 15, 16, 17, 18, 19, 20, 21, 22, 23, 24, 25, 26, 27, 28, 29, 30, 31, 32, 33,
    34, 35, 65_535, 37,
];

fn forms_cost(rt: &impl Abort, costs: &Schedule) {
    for (form, wanted) in [
        (1, 1),
        (2, 2),
        (3, 3),
        (4, 4),
        (5, 5),
        (6, 6),
        (7, 7),
        (8, 8),
        (9, 9),
        (10, 10),
        (11, 255),
        (12, 12),
        (13, 13),
    ] {
        assert!(rt; 1 <= form && form <= 13);
        assert_eq!(rt; costs.form_cost(form), wanted, "form {form}");
    }
}

fn calls_cost(rt: &impl Abort, costs: &Schedule) {
    for (number, wanted) in [
        (0, 10),
        (1, 11),
        (25, 35),
        (26, 65_535),
        (27, 37),
        (28, 37),
        (u64::MAX, 37),
    ] {
        assert_eq!(rt; costs.call_cost(number), wanted, "call {number}");
    }
}

#[test]
fn a_schedule_has_its_costs(rt: HostRuntime) {
    if let Some(costs) = Schedule::of(FORMS, CALLS) {
        forms_cost(&rt, &costs);
        calls_cost(&rt, &costs);
        assert_eq!(rt; costs.forms(), &FORMS);
        assert_eq!(rt; costs.calls(), &CALLS);
        assert!(rt; !costs.has_plain_forms());
    } else {
        panic!(rt; "no schedule");
    }
}

#[test]
fn the_plain_schedule_has_ones_and_tens(rt: HostRuntime) {
    let plain = Schedule::plain();
    assert_eq!(rt; Schedule::of([1; 13], [10; 28]), Some(plain));
    assert_eq!(rt; (plain.form_cost(13), plain.call_cost(27)), (1, 10));
    assert!(rt; plain.has_plain_forms());
}

#[test]
fn costs_that_are_too_low_are_no_schedule(rt: HostRuntime) {
    let mut forms = [1; 13];
    forms[12] = 0;
    assert_eq!(rt; Schedule::of(forms, [10; 28]), None);
    let mut calls = [10; 28];
    calls[0] = 9;
    assert_eq!(rt; Schedule::of([1; 13], calls), None);
    calls[0] = 10;
    calls[27] = 9;
    assert_eq!(rt; Schedule::of([1; 13], calls), None);
}
