//! Histories by hand, at the edges of their periods.
ghost use Rattle.std.specs.Prelude.{◌≤◌, length};

use preimage_store::{Forgot, History, Huh, forget, solicit};

fn history(slots: &[u32]) -> History
    requires { length slots.now ≤ 3 }
{
    History::of(slots).unwrap()
}

#[test]
fn preimages_are_asked_for_and_forgotten(rt: HostRuntime) {
    let forgotten: [(&[u32], u32, Result<Forgot, Huh>); 8] = [
        (&[], 7, Ok(Forgot::Dropped)),
        (&[10], 30, Ok(Forgot::Kept(history(&[10, 30])))),
        (&[10, 20], 19_220, Err(Huh)),
        (&[10, 20], 19_221, Ok(Forgot::Dropped)),
        (&[10, 20, 30], 19_220, Err(Huh)),
        (
            &[10, 20, 30],
            19_221,
            Ok(Forgot::Kept(history(&[30, 19_221]))),
        ),
        (&[0, 4_294_967_295], 4_294_967_295, Err(Huh)),
        (&[0, 4_294_948_094], 4_294_967_295, Ok(Forgot::Dropped)),
    ];
    for (slots, now, want) in forgotten {
        let prior = History::of(slots);
        assert!(rt;
            prior.map(|prior| forget(prior, now)) == Some(want),
            "of {slots:?} at {now}"
        );
    }
    let asked: [(Option<History>, Result<History, Huh>); 5] = [
        (None, Ok(history(&[]))),
        (History::of(&[]), Err(Huh)),
        (History::of(&[10]), Err(Huh)),
        (History::of(&[10, 20]), Ok(history(&[10, 20, 30]))),
        (History::of(&[10, 20, 25]), Err(Huh)),
    ];
    for (prior, want) in asked {
        assert!(rt; solicit(prior, 30) == want);
    }
}

#[test]
fn histories_answer(rt: HostRuntime) {
    let at: [(&[u32], u32, bool); 10] = [
        (&[], 4_294_967_295, false),
        (&[10], 9, false),
        (&[10], 10, true),
        (&[10, 20], 9, false),
        (&[10, 20], 19, true),
        (&[10, 20], 20, false),
        (&[10, 20, 30], 10, true),
        (&[10, 20, 30], 20, false),
        (&[10, 20, 30], 29, false),
        (&[10, 20, 30], 30, true),
    ];
    for (slots, at, want) in at {
        assert_eq!(rt;
            History::of(slots).map(|h| h.available(at)),
            Some(want),
            "of {slots:?} at {at}"
        );
    }
    let words: [(&[u32], (u64, u64)); 4] = [
        (&[], (0, 0)),
        (&[10], (42_949_672_961, 0)),
        (&[10, 20], (42_949_672_962, 20)),
        (&[10, 20, 30], (42_949_672_963, 128_849_018_900)),
    ];
    for (slots, want) in words {
        assert_eq!(rt;
            History::of(slots).map(|h| h.words()),
            Some(want),
            "of {slots:?}"
        );
    }
    assert!(rt; history(&[]).deliver(7) == History::of(&[7]));
    assert!(rt; history(&[10]).deliver(11).is_none());
    assert!(rt; History::of(&[1, 2, 3, 4]).is_none());
    assert!(rt; history(&[10, 20]).slots() == [10, 20].as_slice());
}
