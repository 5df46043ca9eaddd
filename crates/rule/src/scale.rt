// The head of frames: a rule's scale.
ghost use Rattle.std.specs.Prelude.{◌≡◌, cond};
ghost use Rattle.rule.specs.Frames.{frame_at};
ghost use Rattle.rule.specs.Scale.{headed, head_fields, head_fine};
ghost use Rattle.rule.specs.Stack.{HeadIs};

use crate::{Frame, Head, frames, kinds, limits};

// The first frame, where it is of kind 04.
fn head_frame(frames: &[u8]) -> Option<Frame>
    ensures { result ≡ cond (headed frames.now) (Some (frame_at frames.now 0)) None }
{
    let headed = limits::FRAME_BYTES <= frames.len() && frames[0] == kinds::SCALE_BYTE;
    headed.then(|| frames::frame_at(frames, 0))
}

// The head of any bytes.
pub fn head_of(frames: &[u8]) -> Head
    ensures { HeadIs frames.now result }
{
    match head_frame(frames) {
        Some(x) => Head {
            frames: 1,
            decimals: x.event,
            most: limits::DECIMAL_LIMIT,
        },
        None => Head::default(),
    }
}

// Whether the head, if there is one, has the fields of its kind.
pub fn head_fine(frames: &[u8]) -> bool
    ensures { result ≡ head_fine frames.now }
{
    head_frame(frames).is_none_or(|x| x.head_fields())
}
