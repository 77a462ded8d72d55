// The frame for positions in metres that the settings of a grid make.
#![tactic(auto)]

ghost use Rattle.std.specs.Prelude.{◌≡◌};
ghost use Rattle.settings_frame.specs.Frames.{frame_of};

use metres::Frame;
use settings::Settings;

// The edge and the origin of settings, in metres.
pub fn frame_of(s: Settings) -> Frame
    ensures { result ≡ frame_of s }
{
    Frame {
        x: f64::from(s.x),
        y: f64::from(s.y),
        z: f64::from(s.z),
        edge: f64::from(s.edge),
    }
}
