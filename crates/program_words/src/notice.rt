//! What the program says about itself.

ghost use Rattle.std.specs.Prelude.{◌≡◌};
ghost use Rattle.program_words.specs.Notices.{notice_named, notice_of};
ghost use Rattle.program_words.specs.Words.{texts};

const HELP: &str = "usage: mincut JOB [U V] [--workers N]\n\
    the graph comes in METIS text from standard input: mincut JOB < GRAPH\n\
    value: prints the least weight of a cut\n\
    count: prints this value and the number of minimum cuts\n\
    cactus: prints all minimum cuts as one cactus\n\
    cuts: lists the minimum cuts, each by its side without vertex 1\n\
    part U V: lists those that separate the vertices U and V\n\
    balanced: prints a minimum cut whose lighter side is heaviest\n\
    augment: prints the fewest edges of weight 1 that raise the value, and the sets that show it\n\
    grow U V W ..: inserts edges U V of weight W, and prints value and count after each, then the cactus\n\
    trial N: prints five facts about a graph of about N vertices that it makes, 12 to 100000\n\
    --workers N: the number of threads, 1 to 64, and 4 if not given; the text is the same\n\
    --least W, with cuts: only those whose lighter side weighs W or more\n\
    --help, -h: prints this text\n\
    --version, -V: prints the version\n";

const VERSION: &str = "mincut 0.4.0\n";

/// A text about the program, for which no graph is read.
#[derive(Clone, Copy, Debug, PartialEq, Eq)]
pub enum Notice {
    Help,
    Version,
}

impl Notice {
    ghost use Rattle.std.specs.Prelude.{◌≡◌};
    ghost use Rattle.program_words.specs.Notices.{text_of};

    /// The whole text, with a line feed at its end.
    pub fn text(&self) -> &'static str
        ensures { result.now ≡ text_of self.now }
    {
        match self {
            Notice::Help => HELP,
            Notice::Version => VERSION,
        }
    }
}

fn notice_named(word: &str) -> Option<Notice>
    ensures { result ≡ notice_named word.now }
{
    match word {
        "--help" | "-h" => Some(Notice::Help),
        "--version" | "-V" => Some(Notice::Version),
        _ => None,
    }
}

/// The notice that the words ask for, if they are the one word that names it.
pub fn notice_of(words: &[String]) -> Option<Notice>
    ensures { result ≡ notice_of (texts words.now) }
{
    match words {
        [word] => notice_named(word.as_str()),
        _ => None,
    }
}
