// The words of seeds and of lists.
use tda_words::{ListWords, SeedWords, Words};

const LAST: u64 = u64::MAX;

// The next three words, and then how many are left and were given.
fn taken_three<W: Words>(words: &mut W) -> ([Option<u32>; 3], u64, u64) {
    let given = [words.next(), words.next(), words.next()];
    (given, words.left(), words.taken())
}

#[test]
fn seeds_give_the_key_stream(rt: HostRuntime) {
    let mut one = SeedWords::new(&[0; 32], 0, 1);
    assert_eq!(rt; (one.left(), one.taken()), (1, 0));
    assert_eq!(rt;
        taken_three(&mut one),
        ([Some(0xade0_b876), None, None], 0, 1)
    );

    // RFC 8439, appendix A.1: the vectors of the zero key, and what crosses their blocks.
    let zero_key = [
        (0, 0, ([None, None, None], 0, 0)),
        (1, 1, ([Some(0x903d_f1a0), None, None], 0, 1)),
        (
            0,
            5,
            (
                [Some(0xade0_b876), Some(0x903d_f1a0), Some(0xe56a_5d40)],
                2,
                3,
            ),
        ),
        (15, 2, ([Some(0x8665_eeb2), Some(0xbee7_079f), None], 0, 2)),
        (
            0,
            1 << 32,
            (
                [Some(0xade0_b876), Some(0x903d_f1a0), Some(0xe56a_5d40)],
                (1 << 32) - 3,
                3,
            ),
        ),
        // The places go on past 64 bits.
        (
            LAST,
            3,
            (
                [Some(0x9a76_ac2e), Some(0xc264_502c), Some(0x140c_12ef)],
                0,
                3,
            ),
        ),
    ];
    for (place, budget, want) in zero_key {
        assert!(rt; budget <= 1 << 32);
        let mut words = SeedWords::new(&[0; 32], place, budget);
        assert_eq!(rt; taken_three(&mut words), want, "at {place}");
    }

    // The same appendix: a key whose last byte is 1, and one whose second byte is 255.
    let mut key = [0; 32];
    key[31] = 1;
    let mut third = SeedWords::new(&key, 16, 2);
    assert_eq!(rt;
        taken_three(&mut third),
        ([Some(0x2452_eb3a), Some(0x9249_f8ec), None], 0, 2)
    );
    let mut key = [0; 32];
    key[1] = 255;
    let mut fourth = SeedWords::new(&key, 32, 2);
    assert_eq!(rt;
        taken_three(&mut fourth),
        ([Some(0xfb4d_d572), Some(0x4bc4_2ef1), None], 0, 2)
    );
}

#[test]
fn lists_give_their_words(rt: HostRuntime) {
    let lists = [
        ([].as_slice(), ([None, None, None], 0, 0)),
        (&[1, 2, 3, 4], ([Some(0x0403_0201), None, None], 0, 1)),
        (
            &[0, 0, 0, 0, 255, 255, 255, 255, 0, 0, 0, 1, 7, 0, 0, 0],
            ([Some(0), Some(u32::MAX), Some(1 << 24)], 1, 3),
        ),
    ];
    for (bytes, want) in lists {
        assert!(rt; bytes.len() % 4 == 0 && bytes.len() < 100);
        let mut words = ListWords::new(bytes);
        assert_eq!(rt; (words.left(), words.taken()), (bytes.len() as u64 / 4, 0));
        assert_eq!(rt; taken_three(&mut words), want, "at {bytes:?}");
    }
}
