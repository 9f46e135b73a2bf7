//! Sums, products, quotients, remainders and comparisons.
use super::*;

#[test]
#[tactic(auto, unfolding(pvm_alu::specs::Alu::binary_line))]
fn sums_and_products_of_32(rt: HostRuntime) {
    let sums = [
        (0x7fff_ffff, 1, 0xffff_ffff_8000_0000),
        (0xffff_ffff, 1, 0),
        (u64::MAX, u64::MAX, 0xffff_ffff_ffff_fffe),
        (LEAST, LEAST, 0),
        (0x1234_5678_9abc, 0xfedc_ba98_7654, 0x1111_1110),
    ];
    gives(&rt, Op::Add32, &sums);
    gives(&rt, Op::AddImm32, &sums);
    let differences = [
        (0, 1, u64::MAX),
        (0x8000_0000, 1, 0x7fff_ffff),
        (LEAST, 1, u64::MAX),
        (0xffff_ffff, u64::MAX, 0),
        (0x1234_5678_9abc, 0xfedc_ba98_7654, 0xffff_ffff_9be0_2468),
    ];
    gives(&rt, Op::Sub32, &differences);
    gives_turned(&rt, Op::NegAddImm32, &differences);
    let products = [
        (0x8000_0000, 2, 0),
        (0xffff_ffff, 0xffff_ffff, 1),
        (u64::MAX, u64::MAX, 1),
        (LEAST, 2, 0),
        (0x1234_5678_9abd, 0xfedc_ba98_7655, 0x7f96_7ec1),
    ];
    gives(&rt, Op::Mul32, &products);
    gives(&rt, Op::MulImm32, &products);
}

#[test]
#[tactic(auto, unfolding(pvm_alu::specs::Alu::binary_line))]
fn sums_and_products_of_64(rt: HostRuntime) {
    let sums = [
        (0x7fff_ffff, 1, 0x8000_0000),
        (0xffff_ffff, 1, 0x1_0000_0000),
        (u64::MAX, u64::MAX, 0xffff_ffff_ffff_fffe),
        (LEAST, LEAST, 0),
        (0x1234_5678_9abc, 0xfedc_ba98_7654, 0x1_1111_1111_1110),
    ];
    gives(&rt, Op::Add64, &sums);
    gives(&rt, Op::AddImm64, &sums);
    let differences = [
        (0, 1, u64::MAX),
        (0x8000_0000, 1, 0x7fff_ffff),
        (LEAST, 1, 0x7fff_ffff_ffff_ffff),
        (0xffff_ffff, u64::MAX, 0x1_0000_0000),
        (0x1234_5678_9abc, 0xfedc_ba98_7654, 0xffff_1357_9be0_2468),
    ];
    gives(&rt, Op::Sub64, &differences);
    gives_turned(&rt, Op::NegAddImm64, &differences);
    let products = [
        (0x8000_0000, 2, 0x1_0000_0000),
        (0xffff_ffff, 0xffff_ffff, 0xffff_fffe_0000_0001),
        (u64::MAX, u64::MAX, 1),
        (LEAST, 2, 0),
        (0x1234_5678_9abd, 0xfedc_ba98_7655, 0xd77d_a3b1_7f96_7ec1),
    ];
    gives(&rt, Op::Mul64, &products);
    gives(&rt, Op::MulImm64, &products);
}

#[test]
#[tactic(auto, unfolding(pvm_alu::specs::Alu::binary_line))]
fn quotients_and_remainders_of_32(rt: HostRuntime) {
    let quotients = [
        (5, 0, u64::MAX),
        (LEAST, u64::MAX, 0),
        (0x8000_0000, 0xffff_ffff, 0),
        (0xffff_ffff_ffff_fff9, 2, 0x7fff_fffc),
        (7, 0xffff_ffff_ffff_fffe, 0),
        (0x7fff_ffff_ffff_ffff, 0x8000_0000, 1),
    ];
    gives(&rt, Op::DivU32, &quotients);
    let signed_quotients = [
        (5, 0, u64::MAX),
        (LEAST, u64::MAX, 0),
        (0x8000_0000, 0xffff_ffff, 0xffff_ffff_8000_0000),
        (0xffff_ffff_ffff_fff9, 2, 0xffff_ffff_ffff_fffd),
        (7, 0xffff_ffff_ffff_fffe, 0xffff_ffff_ffff_fffd),
        (0x7fff_ffff_ffff_ffff, 0x8000_0000, 0),
    ];
    gives(&rt, Op::DivS32, &signed_quotients);
    let remainders = [
        (5, 0, 5),
        (LEAST, u64::MAX, 0),
        (0x8000_0000, 0xffff_ffff, 0xffff_ffff_8000_0000),
        (0xffff_ffff_ffff_fff9, 2, 1),
        (7, 0xffff_ffff_ffff_fffe, 7),
        (0x7fff_ffff_ffff_ffff, 0x8000_0000, 0x7fff_ffff),
    ];
    gives(&rt, Op::RemU32, &remainders);
    let signed_remainders = [
        (5, 0, 5),
        (LEAST, u64::MAX, 0),
        (0x8000_0000, 0xffff_ffff, 0),
        (0xffff_ffff_ffff_fff9, 2, u64::MAX),
        (7, 0xffff_ffff_ffff_fffe, 1),
        (0x7fff_ffff_ffff_ffff, 0x8000_0000, u64::MAX),
    ];
    gives(&rt, Op::RemS32, &signed_remainders);
}

#[test]
#[tactic(auto, unfolding(pvm_alu::specs::Alu::binary_line))]
fn quotients_and_remainders_of_64(rt: HostRuntime) {
    let quotients = [
        (5, 0, u64::MAX),
        (LEAST, u64::MAX, 0),
        (0x8000_0000, 0xffff_ffff, 0),
        (0xffff_ffff_ffff_fff9, 2, 0x7fff_ffff_ffff_fffc),
        (7, 0xffff_ffff_ffff_fffe, 0),
        (0x7fff_ffff_ffff_ffff, 0x8000_0000, 0xffff_ffff),
    ];
    gives(&rt, Op::DivU64, &quotients);
    let signed_quotients = [
        (5, 0, u64::MAX),
        (LEAST, u64::MAX, LEAST),
        (0x8000_0000, 0xffff_ffff, 0),
        (0xffff_ffff_ffff_fff9, 2, 0xffff_ffff_ffff_fffd),
        (7, 0xffff_ffff_ffff_fffe, 0xffff_ffff_ffff_fffd),
        (0x7fff_ffff_ffff_ffff, 0x8000_0000, 0xffff_ffff),
    ];
    gives(&rt, Op::DivS64, &signed_quotients);
    let remainders = [
        (5, 0, 5),
        (LEAST, u64::MAX, LEAST),
        (0x8000_0000, 0xffff_ffff, 0x8000_0000),
        (0xffff_ffff_ffff_fff9, 2, 1),
        (7, 0xffff_ffff_ffff_fffe, 7),
        (0x7fff_ffff_ffff_ffff, 0x8000_0000, 0x7fff_ffff),
    ];
    gives(&rt, Op::RemU64, &remainders);
    let signed_remainders = [
        (5, 0, 5),
        (LEAST, u64::MAX, 0),
        (0x8000_0000, 0xffff_ffff, 0x8000_0000),
        (0xffff_ffff_ffff_fff9, 2, u64::MAX),
        (7, 0xffff_ffff_ffff_fffe, 1),
        (0x7fff_ffff_ffff_ffff, 0x8000_0000, 0x7fff_ffff),
    ];
    gives(&rt, Op::RemS64, &signed_remainders);
}

#[test]
#[tactic(auto, unfolding(pvm_alu::specs::Alu::binary_line))]
fn upper_halves_of_products(rt: HostRuntime) {
    let signed = [
        (u64::MAX, u64::MAX, 0),
        (LEAST, LEAST, 0x4000_0000_0000_0000),
        (LEAST, 2, u64::MAX),
        (0xffff_ffff, 0x1_0000_0000, 0),
        (0xffff_ffff_ffff_fffd, 5, u64::MAX),
        (
            0xfedc_ba98_7654_3210,
            0x1234_5678_9abc,
            0xffff_ffeb_4992_3cc0,
        ),
    ];
    gives(&rt, Op::MulUpperSS, &signed);
    let unsigned = [
        (u64::MAX, u64::MAX, 0xffff_ffff_ffff_fffe),
        (LEAST, LEAST, 0x4000_0000_0000_0000),
        (LEAST, 2, 1),
        (0xffff_ffff, 0x1_0000_0000, 0),
        (0xffff_ffff_ffff_fffd, 5, 4),
        (0xfedc_ba98_7654_3210, 0x1234_5678_9abc, 0x121f_a00a_d77c),
    ];
    gives(&rt, Op::MulUpperUU, &unsigned);
    let mixed = [
        (u64::MAX, u64::MAX, u64::MAX),
        (LEAST, LEAST, 0xc000_0000_0000_0000),
        (LEAST, 2, u64::MAX),
        (0xffff_ffff, 0x1_0000_0000, 0),
        (0xffff_ffff_ffff_fffd, 5, u64::MAX),
        (
            0xfedc_ba98_7654_3210,
            0x1234_5678_9abc,
            0xffff_ffeb_4992_3cc0,
        ),
    ];
    gives(&rt, Op::MulUpperSU, &mixed);
}

#[test]
#[tactic(auto, unfolding(pvm_alu::specs::Alu::binary_line))]
fn one_where_below(rt: HostRuntime) {
    let below = [
        (0, 0, 0),
        (0, u64::MAX, 1),
        (LEAST, 0x7fff_ffff_ffff_ffff, 0),
        (0x8000_0000, 0xffff_ffff, 1),
        (u64::MAX, 0xffff_ffff_ffff_fffe, 0),
    ];
    gives(&rt, Op::SetLtU, &below);
    gives(&rt, Op::SetLtUImm, &below);
    gives_turned(&rt, Op::SetGtUImm, &below);
    let below_signed = [
        (0, 0, 0),
        (0, u64::MAX, 0),
        (LEAST, 0x7fff_ffff_ffff_ffff, 1),
        (0x8000_0000, 0xffff_ffff, 1),
        (u64::MAX, 0xffff_ffff_ffff_fffe, 0),
    ];
    gives(&rt, Op::SetLtS, &below_signed);
    gives(&rt, Op::SetLtSImm, &below_signed);
    gives_turned(&rt, Op::SetGtSImm, &below_signed);
}

#[test]
#[tactic(auto, unfolding(pvm_alu::specs::Alu::binary_line))]
fn larger_and_smaller(rt: HostRuntime) {
    let max = [
        (0, 0, 0),
        (0, u64::MAX, 0),
        (LEAST, 0x7fff_ffff_ffff_ffff, 0x7fff_ffff_ffff_ffff),
        (0x8000_0000, 0xffff_ffff, 0xffff_ffff),
        (u64::MAX, 0xffff_ffff_ffff_fffe, u64::MAX),
    ];
    gives(&rt, Op::Max, &max);
    let max_u = [
        (0, 0, 0),
        (0, u64::MAX, u64::MAX),
        (LEAST, 0x7fff_ffff_ffff_ffff, LEAST),
        (0x8000_0000, 0xffff_ffff, 0xffff_ffff),
        (u64::MAX, 0xffff_ffff_ffff_fffe, u64::MAX),
    ];
    gives(&rt, Op::MaxU, &max_u);
    let min = [
        (0, 0, 0),
        (0, u64::MAX, u64::MAX),
        (LEAST, 0x7fff_ffff_ffff_ffff, LEAST),
        (0x8000_0000, 0xffff_ffff, 0x8000_0000),
        (u64::MAX, 0xffff_ffff_ffff_fffe, 0xffff_ffff_ffff_fffe),
    ];
    gives(&rt, Op::Min, &min);
    let min_u = [
        (0, 0, 0),
        (0, u64::MAX, 0),
        (LEAST, 0x7fff_ffff_ffff_ffff, 0x7fff_ffff_ffff_ffff),
        (0x8000_0000, 0xffff_ffff, 0x8000_0000),
        (u64::MAX, 0xffff_ffff_ffff_fffe, 0xffff_ffff_ffff_fffe),
    ];
    gives(&rt, Op::MinU, &min_u);
}
