// Loads: what a port keeps of a frame while it waits. Marks in modules, lift rows in the controller.
#![tactic(auto)]

ghost use Rattle.std.specs.Prelude.{◌≡◌, ℕ};

pub mod lifts;
pub mod marks;

// A load stands for one frame: the stream that it belongs to and its length in octets, the same at each reading.
pub trait Load: Copy {
    ghost stream_of: { Self → ℕ };

    ghost length_of: { Self → ℕ };

    fn stream(&self) -> u8
        ensures { result ≡ stream_of self.now };

    fn length(&self) -> u16
        ensures { result ≡ length_of self.now };
}
