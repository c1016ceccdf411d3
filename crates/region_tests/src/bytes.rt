// The bytes of pads, of new frames and of markers.
use crate::told::{Told, told};
use layout::marker::{Marker, Pad};
use plain::{Answer, Progress};
use region::read::PadContent;
use region::write::{frame_bytes, pad_bytes};

#[test]
fn pads(rt: HostRuntime) {
    let none = pad_bytes(PadContent {
        answer: None,
        progress: Progress { value: 258 },
    });
    assert_eq!(rt;
        none.as_slice(),
        [0, 0, 0, 0, 0, 0, 0, 0, 0, 0, 0, 0, 0, 0, 0, 1, 2].as_slice()
    );
    let most = pad_bytes(PadContent {
        answer: Some(Answer { value: u64::MAX }),
        progress: Progress { value: u64::MAX },
    });
    assert_eq!(rt;
        most.as_slice(),
        [
            1, 255, 255, 255, 255, 255, 255, 255, 255, 255, 255, 255, 255, 255, 255, 255, 255,
        ]
        .as_slice()
    );
}

fn frame_length(kind: u16, args: &[u8]) -> Told<u64> {
    told(frame_bytes(kind, args).map(|frame| frame.as_slice().len() as u64))
}

#[test]
fn frames(rt: HostRuntime) {
    assert_eq!(rt;
        [
            frame_length(1, &[]),
            frame_length(1, &[0; 255]),
            frame_length(1, &[0; 256]),
        ],
        [Ok(39), Ok(294), Err((5, 0))]
    );
    let frame = frame_bytes(513, &[7]).expect(&rt, "a frame with one argument byte");
    let bytes = frame.as_slice();
    assert_eq!(rt; bytes.get(..5), Some([0, 1, 2, 1, 7].as_slice()));
    assert_eq!(rt; bytes.get(39).copied(), Some(1));
}

// The bottom's marker on a fresh stack, after a call, a give, a call and a give.
#[test]
fn markers(rt: HostRuntime) {
    let fresh = Marker {
        live: Pad::Zero,
        last: true,
    };
    let called = fresh.called();
    let given = called.given();
    let again = given.called();
    assert_eq!(rt;
        [
            u8::from(fresh),
            u8::from(called),
            u8::from(given),
            u8::from(again),
            u8::from(again.given()),
            u8::from(fresh.noted()),
        ],
        [1, 0, 3, 2, 1, 3]
    );
}
