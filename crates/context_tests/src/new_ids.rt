//! Numbers for new services. The wanted values come from another BLAKE2b (Python's hashlib).
use account_context::{bump, first_candidate};

// The numbers from 0 to 31.
fn ascending() -> [u8; 32] {
    let mut bytes = [0; 32];
    for k in 0..32u8 {
        bytes[usize::from(k)] = k;
    }
    bytes
}

#[test]
fn the_first_candidate_is_that_of_the_digest(rt: HostRuntime) {
    let zeros = [0; 32];
    let sevens = [7; 32];
    let rows: [(u32, [u8; 32], u32, u32); 8] = [
        (0, zeros, 0, 662_505_679),
        (1, zeros, 1, 1_318_567_118),
        (1, zeros, 2, 782_363_711),
        (2, zeros, 1, 4_260_249_167),
        (1, ascending(), 100, 323_930_997),
        (300, ascending(), 100, 4_202_442_406),
        (128, sevens, 16_384, 4_188_433_244),
        (u32::MAX, zeros, u32::MAX, 1_431_195_238),
    ];
    for (service, entropy, slot, want) in rows {
        assert!(rt;
            first_candidate(service, &entropy, slot) == want,
            "of {service} at {slot}"
        );
    }
}

#[test]
fn the_candidate_moves_on_by_42_along_the_ring(rt: HostRuntime) {
    let rows = [
        (256, 298),
        (1_318_567_118, 1_318_567_160),
        (4_294_966_997, 4_294_967_039),
        (4_294_966_998, 256),
        (4_294_967_039, 297),
    ];
    for (id, want) in rows {
        if id >= 256 && id < 4_294_967_040 {
            assert!(rt; bump(id) == want, "from {id}");
        }
    }
}

#[test]
fn two_services_may_have_one_candidate(rt: HostRuntime) {
    // The first two from 1 on that agree, found with another BLAKE2b.
    for service in [41_639, 115_535] {
        assert!(rt; first_candidate(service, &[0; 32], 1) == 4_186_522_586);
    }
}
