// The bytes that are written: a pad, a new frame, an empty stack.
ghost use Rattle.std.specs.Prelude.{◌≡◌, ◌<◌, ◌≤◌, length, MatchResult};
ghost use Rattle.model.specs.declared.faults.Layer.TheVariants.{Stack};
ghost use Rattle.model.specs.Faults.{Refusal};
ghost use Rattle.layout.specs.Layout.{max_args};
ghost use Rattle.region.specs.Writing.{pad_bytes, fresh_frame};
ghost use Rattle.region.specs.Plans.{fresh_bytes};

use crate::read::PadContent;
use crate::stretch::Stretch;
use layout::marker::{Marker, Pad};
use layout::{MAX_ARGS, NO_ANSWER, WITH_ANSWER};
use model::faults::StackFault;
use plain::Progress;

// The bytes of a pad: no answer is tag 0 with zero answer bytes.
pub fn pad_bytes(content: PadContent) -> Stretch
    ensures { result ≡ pad_bytes content.answer content.progress }
{
    let (tag, answer) = content
        .answer
        .map_or((NO_ANSWER, 0), |answer| (WITH_ANSWER, answer.value));
    let mut pad = Stretch::new();
    pad.append(&[tag]);
    pad.append(&answer.to_be_bytes());
    pad.append(&content.progress.value.to_be_bytes());
    pad
}

// The bytes of a fresh frame on top of the stack.
fn fresh_frame(kind: u16, args: &[u8]) -> Stretch
    requires { length args.now ≤ max_args }
    ensures { result ≡ fresh_frame kind args.now }
{
    let pad = pad_bytes(PadContent {
        answer: None,
        progress: Progress { value: 0 },
    });
    let marker = Marker {
        live: Pad::Zero,
        last: true,
    };
    let mut frame = Stretch::new();
    frame.append(&(args.len() as u16).to_be_bytes());
    frame.append(&kind.to_be_bytes());
    frame.append(args);
    frame.append(pad.as_slice());
    frame.append(pad.as_slice());
    frame.append(&[u8::from(marker)]);
    frame
}

// The bytes of a new frame, as a call writes it: both pads zero, and the stack ends here. With more than 255 argument bytes it is
// refused with 5.
pub fn frame_bytes(kind: u16, args: &[u8]) -> Result<Stretch, StackFault>
    ensures { MatchResult result (λ s. (length args.now ≤ max_args) × (s ≡ fresh_frame kind args.now)) (λ e. (max_args < length args.now) × Refusal 5 Stack 0 e) }
{
    if args.len() > MAX_ARGS {
        return Err(StackFault::TooManyArguments);
    }
    Ok(fresh_frame(kind, args))
}

// The bytes of an empty stack on a board of that size, behind the version.
pub(crate) fn fresh_bytes(size: u32) -> Stretch
    ensures { result ≡ fresh_bytes size }
{
    let bottom = fresh_frame(0, &[]);
    let mut bytes = Stretch::new();
    bytes.append(&size.to_be_bytes());
    bytes.append(bottom.as_slice());
    bytes
}
