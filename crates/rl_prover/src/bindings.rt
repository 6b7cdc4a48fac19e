// The first pass: the names of parameters bound to the values of arguments.
ghost use Rattle.std.specs.Prelude.{◌≡◌, ◌+◌, ◌≤◌, ◌<◌};
ghost use Rattle.rl_records.specs.Found.{found};
ghost use Rattle.rl_prover.specs.Passes.{forget_for, Binds, BindsAll};

use rl_fold::const_eval;
use rl_names::{Names, bind_name};
use rl_records::ImageRef;
use rl_spec::{ConstVal, Interval};

// Forgets what a binding can change, by the value that its name had. Without one every value stays, and that a node had none is
// forgotten by itself, since there is a name more.
fn forget_for(memory: &mut [u64], old: Option<ConstVal>)
    ensures { memory.new ≡ forget_for memory.old old }
{
    if old.is_some() {
        memory.fill(0);
    }
}

// Binds a name to a value, if there is one. Answers how many names are bound then.
fn bind_value(
    classes: &[u16],
    words: &mut [u64],
    count: u16,
    memory: &mut [u64],
    t: u16,
    v: Option<ConstVal>,
) -> u16
    requires { count < 65535 }
    ensures binds { Binds classes.now words.old count memory.old t v words.new result memory.new }
    ensures upper_bound { result ≤ count + 1 }
{
    if v.is_none() {
        return count;
    }
    let names = Names {
        classes,
        words,
        count,
    };
    forget_for(memory, names.lookup(t));
    bind_name(words, count, t, v);
    count + 1
}

// Folds each argument under the names bound so far, and binds its parameter. The memory is scratch: it stays right for the names, and what
// else it holds then is left open.
pub fn bind_arguments(
    image: ImageRef,
    classes: &[u16],
    params: Interval,
    args: Interval,
    words: &mut [u64],
    memory: &mut [u64],
) -> u16
    ensures { BindsAll (found image.entry) classes.now params args words.old memory.old words.new result memory.new }
{
    let mut count: u16 = 0;
    for i in 0..params.count.min(args.count) {
        let arg = image.entry((args.first as u32) + (i as u32));
        let names = Names {
            classes,
            words,
            count,
        };
        let v = const_eval(image, names, memory, arg);
        let param = image.param((params.first as u32) + (i as u32));
        count = bind_value(classes, words, count, memory, param.name, v);
    }
    count
}
