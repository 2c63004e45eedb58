ghost use Rattle.std.specs.Prelude.{◌≡◌, ℕ, ◌≤◌, length};
ghost use Rattle.heights.specs.Lists.{list_reading};

use crate::law::is_marked;
use crate::list::Heights;
use terms::fault::Fault;

// What the gauge of that name, over that list, answers at a position.
pub fn reading<H: Heights>(heights: &H, name: u8, position: u32) -> Result<i32, Fault>
    requires { 1 ≤ length (H.Heights.list heights.now) }
    ensures { result ≡ list_reading (H.Heights.list heights.now) name position }
{
    if position as usize > heights.count() - 1 {
        return Err(Fault::beyond(position, name));
    }
    let height = heights.height(position as usize);
    if is_marked(height) {
        return Err(Fault::unread(position, name));
    }
    Ok(height)
}
