// The marks of a trial settled: put to zero where the packet was written, or taken back where it is refused.
ghost use Rattle.std.specs.Prelude.{◌≡◌, length};
ghost use Rattle.pages.specs.Passes.{left_of};
ghost use Rattle.data_packet.specs.Marks.{touch};
ghost use Rattle.data_packet.specs.Running.{Inside, cleared_of};

use crate::trial::pass_window;
use item::window_of;
use pages::Pass;

// Passes over the windows of the items that clear.
pub(crate) fn settle(memory: &mut [u32], page: bool, pass: Pass, items: &[u64])
    requires { Inside (length memory.old) items.now (length items.now) }
    ensures { memory.new ≡ touch (left_of pass) (length memory.old) page memory.old (cleared_of items.now) }
{
    for item in items {
        let window = window_of(*item);
        if window.clear {
            pass_window(memory, page, pass, window);
        }
    }
}
