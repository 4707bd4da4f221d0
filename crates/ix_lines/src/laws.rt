//! Laws of lines and pieces.
ghost use Rattle.ix_lines.specs.Feeding.{CompletesTheRest, AnyCutting, FedToItsEnd};
ghost use Rattle.ix_lines.specs.Cutting.{CutAtEachEnd};

/// A text has one cut: parts without a byte 10, each but the last with one behind it.
pub fn cut_at_each_end()
    ensures { CutAtEachEnd }
{}

/// The items of a text and a piece are those of the text, and behind them those that
/// the piece completes.
pub fn completes_the_rest()
    ensures { CompletesTheRest }
{}

/// A piece that is cut in two gives the same items.
pub fn any_cutting()
    ensures { AnyCutting }
{}

/// A piece that is fed to its end gives exactly the items that it completes.
pub fn fed_to_its_end()
    ensures { FedToItsEnd }
{}
