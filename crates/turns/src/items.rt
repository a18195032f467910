// The items of a run through one cycle, on its 16 places.
ghost use Rattle.std.specs.Prelude.{◌≡◌, ◌≤◌};
ghost use Rattle.lists.specs.Lists.{tab};
ghost use Rattle.calls.specs.Items.{padded};
ghost use Rattle.turns.specs.Cycles.{queued_at, left_at, front_of};

// Item i of the queue: the held ones, and the incoming one behind the last.
fn queued_at(items: [u32; 16], level: usize, incoming: u32, i: usize) -> u32
    requires { level ≤ 16 }
    ensures { result ≡ queued_at items level incoming i }
{
    if i < level {
        return items[i];
    }
    incoming
}

// What leaves: the front of the queue, where the reader's row takes it.
pub fn front(items: [u32; 16], level: usize, incoming: u32, taken: u8) -> u32
    requires { level ≤ 16 }
    ensures { result ≡ front_of items level incoming taken }
{
    if taken == 0 {
        return 0;
    }
    queued_at(items, level, incoming, 0)
}

// What stays: n items of the queue behind those taken, and zeros.
pub fn moved(items: [u32; 16], level: usize, incoming: u32, taken: usize, n: usize) -> [u32; 16]
    requires { (level ≤ 16) × (taken ≤ 16) × (n ≤ 16) }
    ensures { result ≡ padded (tab (left_at items level incoming taken) n) }
{
    let mut left = [0u32; 16];
    for i in 0..n {
        left[i] = queued_at(items, level, incoming, taken + i);
    }
    left
}
