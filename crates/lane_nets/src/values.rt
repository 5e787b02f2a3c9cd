//! The values of all signals at 64 patterns at a time.
ghost use Rattle.std.specs.Prelude.{◌≡◌, ◌<◌, ℕ, List, Bool, length};
ghost use Rattle.semantics.specs.Net.{signal_count};
ghost use Rattle.lane_nets.specs.Words.{HasInputs, HasValues};

use crate::table_words::table_word;
use net_core::net::Net;

/// Finds the words of the tables from those of the inputs, which stay.
pub fn eval_words(net: &Net, words: &mut [u64])
    requires { length words.old ≡ signal_count net.now }
    ensures { (b : ℕ) (x : List Bool) → b < 64 → HasInputs net.now words.old b x
        → HasValues net.now words.new b x }
{
    let inputs = net.inputs() as usize;
    for i in net.order() {
        let word = table_word(net.table(*i), words);
        words[inputs + *i as usize] = word;
    }
}
