// The order in which lanes take words: "take words in input order".
#![tactic(auto)]

ghost use Rattle.std.specs.Prelude.{◌≡◌, ◌≤◌, length};
ghost use Rattle.schedule.specs.Run.{input_order};

// 0, 1, 2, ..
pub fn number(order: &mut [u32])
    requires { length order.old ≤ 4096 }
    ensures { order.new ≡ input_order (length order.old) }
{
    for (k, place) in order.iter_mut().enumerate() {
        *place = k as u32;
    }
}
