//! Laws: what is printed is read back.

ghost use Rattle.m3_text.specs.ReadBack.{LinesAgain, WordsAgain, WordsPlain, NumbersAgain, NumbersVisible, HexAgain, HexVisible, FlightsAgain, FlightsVisible};

/// Lines of a text, and words of a line, that are joined are cut again.
pub fn lines_read_back()
    ensures lines { LinesAgain }
    ensures words { WordsAgain }
    ensures plain { WordsPlain }
{}

/// Numbers, bytes and flights' names are printed as words, and read back from them.
pub fn values_read_back()
    ensures numbers { NumbersAgain }
    ensures number_words { NumbersVisible }
    ensures hex { HexAgain }
    ensures hex_words { HexVisible }
    ensures flights { FlightsAgain }
    ensures flight_words { FlightsVisible }
{}
