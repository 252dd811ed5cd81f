// How far a motor still goes when it brakes, and the greatest speed that stops in time.
ghost use Rattle.std.specs.Prelude.{◌≡◌, ◌-◌, ◌≤◌, pos};
ghost use Rattle.profile.specs.Ramp.{greatest_above, stopping_distance};

// Microsteps from a cycle at this speed on, when each next one is slower by the deceleration.
fn stopping_distance(speed: u16, deceleration: u16) -> u32
    requires { 1 ≤ deceleration }
    ensures { result ≡ stopping_distance speed deceleration }
{
    let speed = u32::from(speed);
    let deceleration = u32::from(deceleration);
    // so many whole decelerations are taken off; the last term may be 0
    let times = speed / deceleration;
    (times + 1) * speed - deceleration * (times * (times + 1) / 2)
}

// The greatest speed from the slowest to the fastest that stops within the room, in microsteps, or the slowest.
// Each turn halves what is left, so 16 turns do. The library halves slices, and no range of numbers.
pub(crate) fn greatest(slowest: u16, fastest: u16, deceleration: u16, room: u64) -> u16
    requires { (1 ≤ deceleration) × (slowest ≤ fastest) }
    ensures { result ≡ greatest_above slowest deceleration (pos room) (fastest - slowest) }
{
    let mut low = slowest;
    let mut high = fastest;
    while low < high {
        let middle = high - (high - low) / 2;
        if u64::from(stopping_distance(middle, deceleration)) <= room {
            low = middle;
        } else {
            high = middle - 1;
        }
    }
    low
}
