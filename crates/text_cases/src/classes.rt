// The table of the 256 classes, executed: the readers tell classes by a `match`, which are proved to the same rule.
use crate::show;
use text::classes::class_of;

// The classes of some byte values.
fn line(rt: &HostRuntime, first: u8, last: u8) {
    for byte in first..=last {
        show::say_decimal(rt, class_of(byte) as u64);
    }
    show::say(rt, b"\n");
}

pub fn all(rt: &HostRuntime) {
    line(rt, 0, 63);
    line(rt, 64, 127);
    line(rt, 128, 191);
    line(rt, 192, 255);
}
