// The bindings that a run begins with: the parameters, in order.
ghost use Rattle.std.specs.Prelude.{◌≤◌, List, ℕ};
ghost use Rattle.rl_records.specs.Found.{found_with};
ghost use Rattle.rl_runner.specs.Bound.{BindsAll};

use rl_records::ImageRef;
use rl_spec::{Arguments, Interval};
use rl_statements::Env;

pub fn bind_all(image: ImageRef, params: Interval, arguments: Arguments) -> Env
    ensures { (p : List ℕ) → arguments.count ≤ 16 → params.count ≤ arguments.count → BindsAll (found_with image.entry p) params arguments result }
{
    let mut env = Env::new();
    for i in 0..params.count.min(16) {
        let param = image.param(u32::from(params.first) + u32::from(i));
        env.bind(param.name, arguments.values[usize::from(i)].value);
    }
    env
}
