// How long a lent state is.
#![tactic(auto)]

ghost use Rattle.std.specs.Prelude.{◌≡◌};
ghost use Rattle.storing.specs.State.{words_for};

// How long a state buffer must be for any state of a table of these lengths; 0 where the table is too large.
pub fn state_words(models_len: usize, connectors_len: usize, couplings_len: usize) -> usize
    ensures { result ≡ words_for models_len connectors_len couplings_len }
{
    if 640 < models_len {
        return 0;
    }
    if 1024 < connectors_len {
        return 0;
    }
    if 1536 < couplings_len {
        return 0;
    }
    let rows = (models_len + 9) / 10;
    let connectors = (connectors_len + 3) / 4;
    let couplings = (couplings_len + 5) / 6;
    rows * 206 + connectors * 4 + couplings * 6 + 1542
}
