//! Reading the words of the command line.
ghost use Rattle.std.specs.Prelude.{◌≡◌, ◌<◌, ◌≤◌, ◌∷◌, ◌++◌, ◌⊎◌, ◌==◌, false, [], ℕ, List, codes, decimal, map, length, IfOk, IfSome, IfNone, IsSome, IsTrue, Some, ◌↔◌, All, string_bytes};
ghost use Rattle.std.specs.List.{list_all, slice_split, AllByRecursion};
ghost use Rattle.command_line.specs.Words.{AreNumbers, IsPlainWord, comma_list, words_of};
ghost use Rattle.clap.specs.Words.{first_value, found_of};
ghost use Rattle.lot_base.specs.declared.limits.TheConstants.{GREATEST_CEILING, MOST_GOODS};
ghost use Rattle.lot_base.specs.Goods.{IsRange, IsSupply};
ghost use Rattle.command_line.specs.Givens.{IsBidOf, IsMigrateOf, bid_ids, migrate_ids};
ghost use Rattle.command_line.specs.Commands.{IsNoCommand, IsParted, Spells};
ghost use Rattle.command_line.specs.Positionals.{texts};
ghost use Rattle.command_line.specs.Spellings.{AreTermWords};
ghost use Rattle.command_line.specs.CommandView.{command_as};
ghost use Rattle.lot_base.specs.declared.auction_terms.Terms.{Terms as TermsValue};

use crate::arguments::Parted;
use crate::digits::read_number;
use crate::options::{flag_of, number_of};
use crate::positionals::{named_words, word_of};
use clap::ArgMatches;
use lot_base::limits::{
    GREATEST_CEILING, LEAST_CEILING, MOST_BIDDERS, MOST_DOORS, MOST_GOODS, MOST_SESSIONS,
    MOST_UNITS,
};
use lot_base::{Goods, NoMemory, Prices, Terms};
use std::alloc::{AllocError, Global};

/// A token has at most so many bytes.
const LONGEST_TOKEN: usize = 64;

/// Where an auction is served: at so many doors on an address, for so many sessions at each.
#[derive(Clone, Copy)]
pub struct Serving<'a> {
    /// Meant as HOST:PORT to listen at, and kept as it was written.
    pub address: &'a str,
    /// 1 to 64; 4 where the words name no number.
    pub doors: u32,
    /// 1 to 10,000, one after another at each door; 1 where the words name no number.
    pub sessions: u32,
}

/// The part of a bidder, and where his agent dials.
#[derive(Clone, Copy)]
pub struct Bidding<'a> {
    /// Its number, 1 to 12. Whether the auction has such a bidder is not asked yet.
    pub bidder: u8,
    /// 1 to 64 bytes. The house compares their SHA-256 with the digest in the auction file.
    pub token: &'a str,
    /// Meant as HOST:PORT of the house, and kept as it was written.
    pub address: &'a str,
    /// How many equal looks at a clock, in a row, are borne.
    pub looks: u32,
}

/// The words of a command.
#[derive(Clone, Copy)]
pub enum CommandWords<'a> {
    /// One clock over a log: `terms` are those of SUPPLY, BIDDERS and CEILING, `log` is the file's name.
    Fold {
        terms: Terms,
        log: &'a str,
    },
    /// What an auction file says: the file of this name.
    Check {
        auction: &'a str,
    },
    /// How the clocks of an auction stand: the name of its file, and that of the folder of its journals.
    Standing {
        auction: &'a str,
        journals: &'a str,
    },
    /// Why those clocks of an auction that have ended have an award, or none.
    Explain {
        auction: &'a str,
        journals: &'a str,
    },
    /// Whether one valuation explains all that this bidder, 1 to 12, has reported.
    Judge {
        auction: &'a str,
        journals: &'a str,
        bidder: u8,
    },
    /// What the clocks of an auction settle; `json` where the outcome is written as JSON.
    Settle {
        auction: &'a str,
        journals: &'a str,
        json: bool,
    },
    /// What the clocks of an auction settle, told by bidders with the valuations of the file `values`. `workers` is 1 to 64.
    Trial {
        auction: &'a str,
        values: &'a str,
        workers: u32,
    },
    /// The same, where the prices of the clocks start here, and go up and down. Each is at most 10,000.
    Float {
        auction: &'a str,
        values: &'a str,
        start: Prices,
    },
    /// What `trial` tells, of a market that a number makes. `workers` is 1 to 64.
    Make {
        number: u32,
        workers: u32,
    },
    /// An auction is opened to its bidders: what they report is kept in the folder `journals`.
    Serve {
        auction: &'a str,
        journals: &'a str,
        serving: Serving<'a>,
    },
    /// An agent takes the part of a bidder, who wants what his valuation in the file `values` says.
    Bid {
        auction: &'a str,
        values: &'a str,
        bidding: Bidding<'a>,
    },
    /// The journals of the auction file `old` are carried to the file `new` of the same auction, into the folder `target`.
    Migrate {
        old: &'a str,
        journals: &'a str,
        new: &'a str,
        target: &'a str,
    },
}

/// The command that the parted words are, if they are one.
pub fn read_words<'a>(
    alloc: Global,
    parted: &'a Parted,
) -> Result<Option<CommandWords<'a>>, NoMemory>
    requires { All (λ word. IsPlainWord word.now) parted.now.plain.items }
    ensures some { IfOk result (λ o. IfSome o
        (λ command. (words : List (List ℕ))
        → IsParted words parted.entry.now.name.now (texts parted.entry.now.plain.items) (texts parted.entry.now.options.items)
        → Spells (command_as command) words)) }
    ensures none { IfOk result (λ o. IfNone o
        ((words : List (List ℕ))
        → IsParted words parted.entry.now.name.now (texts parted.entry.now.plain.items) (texts parted.entry.now.options.items)
        → IsNoCommand words)) }
{
    let plain = parted.plain.as_slice();
    let options = parted.options.as_slice();
    match parted.name {
        "fold" => read_fold(alloc, plain),
        "check" => read_check(alloc, plain),
        "standing" => read_standing(alloc, plain),
        "explain" => read_explain(alloc, plain),
        "judge" => read_judge(alloc, plain),
        "settle" => read_settle(alloc, plain, options),
        "trial" => read_trial(alloc, plain, options),
        "float" => read_float(alloc, plain),
        "make" => read_make(alloc, plain, options),
        "serve" => read_serve(alloc, plain, options),
        "bid" => read_bid(alloc, plain, options),
        "migrate" => read_migrate(alloc, plain),
        _ => Ok(None),
    }
}

/// The command `fold` of the words after its name.
fn read_fold<'a>(alloc: Global, words: &'a [&'a str]) -> Result<Option<CommandWords<'a>>, NoMemory>
    requires { All (λ word. IsPlainWord word.now) words.now }
    ensures some { IfOk result (λ o. IfSome o (λ command. Spells (command_as command) (codes "fold" ∷ texts words.entry.now))) }
    ensures none { IfOk result (λ o. IfNone o (IsNoCommand (codes "fold" ∷ texts words.entry.now))) }
{
    let names = ["SUPPLY", "BIDDERS", "CEILING", "LOG"];
    let Some(matches) = named_words(alloc, "fold", &names, words)? else {
        return Ok(None);
    };
    let supply = word_of(&matches, "SUPPLY");
    let bidders = word_of(&matches, "BIDDERS");
    let ceiling = word_of(&matches, "CEILING");
    match read_terms(alloc, supply, bidders, ceiling)? {
        Some(terms) => Ok(Some(CommandWords::Fold {
            terms,
            log: word_of(&matches, "LOG"),
        })),
        None => Ok(None),
    }
}

/// The command `check` of the words after its name.
fn read_check<'a>(alloc: Global, words: &'a [&'a str]) -> Result<Option<CommandWords<'a>>, NoMemory>
    requires { All (λ word. IsPlainWord word.now) words.now }
    ensures some { IfOk result (λ o. IfSome o (λ command. Spells (command_as command) (codes "check" ∷ texts words.entry.now))) }
    ensures none { IfOk result (λ o. IfNone o (IsNoCommand (codes "check" ∷ texts words.entry.now))) }
{
    let Some(matches) = named_words(alloc, "check", &["AUCTION"], words)? else {
        return Ok(None);
    };
    Ok(Some(CommandWords::Check {
        auction: word_of(&matches, "AUCTION"),
    }))
}

/// The command `standing` of the words after its name.
fn read_standing<'a>(
    alloc: Global,
    words: &'a [&'a str],
) -> Result<Option<CommandWords<'a>>, NoMemory>
    requires { All (λ word. IsPlainWord word.now) words.now }
    ensures some { IfOk result (λ o. IfSome o (λ command. Spells (command_as command) (codes "standing" ∷ texts words.entry.now))) }
    ensures none { IfOk result (λ o. IfNone o (IsNoCommand (codes "standing" ∷ texts words.entry.now))) }
{
    let Some(matches) = named_words(alloc, "standing", &["AUCTION", "JOURNALS"], words)? else {
        return Ok(None);
    };
    Ok(Some(CommandWords::Standing {
        auction: word_of(&matches, "AUCTION"),
        journals: word_of(&matches, "JOURNALS"),
    }))
}

/// The command `explain` of the words after its name.
fn read_explain<'a>(
    alloc: Global,
    words: &'a [&'a str],
) -> Result<Option<CommandWords<'a>>, NoMemory>
    requires { All (λ word. IsPlainWord word.now) words.now }
    ensures some { IfOk result (λ o. IfSome o (λ command. Spells (command_as command) (codes "explain" ∷ texts words.entry.now))) }
    ensures none { IfOk result (λ o. IfNone o (IsNoCommand (codes "explain" ∷ texts words.entry.now))) }
{
    let Some(matches) = named_words(alloc, "explain", &["AUCTION", "JOURNALS"], words)? else {
        return Ok(None);
    };
    Ok(Some(CommandWords::Explain {
        auction: word_of(&matches, "AUCTION"),
        journals: word_of(&matches, "JOURNALS"),
    }))
}

/// The command `judge` of the words after its name, if the bidder is one of 1 to 12.
fn read_judge<'a>(alloc: Global, words: &'a [&'a str]) -> Result<Option<CommandWords<'a>>, NoMemory>
    requires { All (λ word. IsPlainWord word.now) words.now }
    ensures some { IfOk result (λ o. IfSome o (λ command. Spells (command_as command) (codes "judge" ∷ texts words.entry.now))) }
    ensures none { IfOk result (λ o. IfNone o (IsNoCommand (codes "judge" ∷ texts words.entry.now))) }
{
    let Some(matches) = named_words(alloc, "judge", &["AUCTION", "JOURNALS", "BIDDER"], words)?
    else {
        return Ok(None);
    };
    match read_number(word_of(&matches, "BIDDER"), 1, MOST_BIDDERS as u32) {
        Some(bidder) => Ok(Some(CommandWords::Judge {
            auction: word_of(&matches, "AUCTION"),
            journals: word_of(&matches, "JOURNALS"),
            bidder: bidder as u8,
        })),
        None => Ok(None),
    }
}

/// The command `settle` of the plain words and the options after its name.
fn read_settle<'a>(
    alloc: Global,
    words: &'a [&'a str],
    options: &[&str],
) -> Result<Option<CommandWords<'a>>, NoMemory>
    requires { All (λ word. IsPlainWord word.now) words.now }
    ensures some { IfOk result (λ o. IfSome o
        (λ command. (line : List (List ℕ)) → IsParted line (codes "settle") (texts words.entry.now) (texts options.now)
        → Spells (command_as command) line)) }
    ensures none { IfOk result (λ o. IfNone o
        ((line : List (List ℕ)) → IsParted line (codes "settle") (texts words.entry.now) (texts options.now) → IsNoCommand line)) }
{
    let Some(json) = flag_of(options, "--json") else {
        return Ok(None);
    };
    let Some(matches) = named_words(alloc, "settle", &["AUCTION", "JOURNALS"], words)? else {
        return Ok(None);
    };
    Ok(Some(CommandWords::Settle {
        auction: word_of(&matches, "AUCTION"),
        journals: word_of(&matches, "JOURNALS"),
        json,
    }))
}

/// The command `trial` of the plain words and the options after its name.
fn read_trial<'a>(
    alloc: Global,
    words: &'a [&'a str],
    options: &[&str],
) -> Result<Option<CommandWords<'a>>, NoMemory>
    requires { All (λ word. IsPlainWord word.now) words.now }
    ensures some { IfOk result (λ o. IfSome o
        (λ command. (line : List (List ℕ)) → IsParted line (codes "trial") (texts words.entry.now) (texts options.now)
        → Spells (command_as command) line)) }
    ensures none { IfOk result (λ o. IfNone o
        ((line : List (List ℕ)) → IsParted line (codes "trial") (texts words.entry.now) (texts options.now) → IsNoCommand line)) }
{
    let Some(workers) = number_of(options, "--workers=", 1, 64, 1) else {
        return Ok(None);
    };
    let Some(matches) = named_words(alloc, "trial", &["AUCTION", "VALUES"], words)? else {
        return Ok(None);
    };
    Ok(Some(CommandWords::Trial {
        auction: word_of(&matches, "AUCTION"),
        values: word_of(&matches, "VALUES"),
        workers,
    }))
}

/// The command `float` of the words after its name, if the last one lists prices.
fn read_float<'a>(alloc: Global, words: &'a [&'a str]) -> Result<Option<CommandWords<'a>>, NoMemory>
    requires { All (λ word. IsPlainWord word.now) words.now }
    ensures some { IfOk result (λ o. IfSome o (λ command. Spells (command_as command) (codes "float" ∷ texts words.entry.now))) }
    ensures none { IfOk result (λ o. IfNone o (IsNoCommand (codes "float" ∷ texts words.entry.now))) }
{
    let Some(matches) = named_words(alloc, "float", &["AUCTION", "VALUES", "START"], words)? else {
        return Ok(None);
    };
    let Some(start) = read_prices(alloc, word_of(&matches, "START"))? else {
        return Ok(None);
    };
    Ok(Some(CommandWords::Float {
        auction: word_of(&matches, "AUCTION"),
        values: word_of(&matches, "VALUES"),
        start,
    }))
}

/// The command `make` of the plain words and the options after its name.
fn read_make<'a>(
    alloc: Global,
    words: &'a [&'a str],
    options: &[&str],
) -> Result<Option<CommandWords<'a>>, NoMemory>
    requires { All (λ word. IsPlainWord word.now) words.now }
    ensures some { IfOk result (λ o. IfSome o
        (λ command. (line : List (List ℕ)) → IsParted line (codes "make") (texts words.entry.now) (texts options.now)
        → Spells (command_as command) line)) }
    ensures none { IfOk result (λ o. IfNone o
        ((line : List (List ℕ)) → IsParted line (codes "make") (texts words.entry.now) (texts options.now) → IsNoCommand line)) }
{
    let Some(workers) = number_of(options, "--workers=", 1, 64, 1) else {
        return Ok(None);
    };
    let Some(matches) = named_words(alloc, "make", &["NUMBER"], words)? else {
        return Ok(None);
    };
    match read_number(word_of(&matches, "NUMBER"), 0, u32::MAX) {
        Some(number) => Ok(Some(CommandWords::Make { number, workers })),
        None => Ok(None),
    }
}

/// The command `serve` of the plain words and the options after its name.
fn read_serve<'a>(
    alloc: Global,
    words: &'a [&'a str],
    options: &[&str],
) -> Result<Option<CommandWords<'a>>, NoMemory>
    requires { All (λ word. IsPlainWord word.now) words.now }
    ensures some { IfOk result (λ o. IfSome o
        (λ command. (line : List (List ℕ)) → IsParted line (codes "serve") (texts words.entry.now) (texts options.now)
        → Spells (command_as command) line)) }
    ensures none { IfOk result (λ o. IfNone o
        ((line : List (List ℕ)) → IsParted line (codes "serve") (texts words.entry.now) (texts options.now) → IsNoCommand line)) }
{
    let Some(doors) = number_of(options, "--doors=", 1, MOST_DOORS, 4) else {
        return Ok(None);
    };
    let Some(sessions) = number_of(options, "--sessions=", 1, MOST_SESSIONS, 1) else {
        return Ok(None);
    };
    let Some(matches) = named_words(alloc, "serve", &["AUCTION", "JOURNALS", "ADDRESS"], words)?
    else {
        return Ok(None);
    };
    Ok(Some(CommandWords::Serve {
        auction: word_of(&matches, "AUCTION"),
        journals: word_of(&matches, "JOURNALS"),
        serving: Serving {
            address: word_of(&matches, "ADDRESS"),
            doors,
            sessions,
        },
    }))
}

/// The command `bid` of the plain words and the options after its name.
fn read_bid<'a>(
    alloc: Global,
    words: &'a [&'a str],
    options: &[&str],
) -> Result<Option<CommandWords<'a>>, NoMemory>
    requires { All (λ word. IsPlainWord word.now) words.now }
    ensures some { IfOk result (λ o. IfSome o
        (λ command. (line : List (List ℕ)) → IsParted line (codes "bid") (texts words.entry.now) (texts options.now)
        → Spells (command_as command) line)) }
    ensures none { IfOk result (λ o. IfNone o
        ((line : List (List ℕ)) → IsParted line (codes "bid") (texts words.entry.now) (texts options.now) → IsNoCommand line)) }
{
    let Some(looks) = number_of(options, "--looks=", 1, 1_000_000_000, 100_000) else {
        return Ok(None);
    };
    let names = ["AUCTION", "VALUES", "BIDDER", "TOKEN", "ADDRESS"];
    let Some(matches) = named_words(alloc, "bid", &names, words)? else {
        return Ok(None);
    };
    Ok(bid_of(&matches, looks))
}

/// The command `bid` of its words, if the bidder is one of 1 to 12 and the token has 1 to 64 bytes.
fn bid_of<'a>(matches: &ArgMatches<'a>, looks: u32) -> Option<CommandWords<'a>>
    requires { AllByRecursion (λ id. IsSome (first_value (found_of matches.now) id)) bid_ids }
    ensures some { IfSome result (λ command. IsBidOf (found_of matches.now) looks (command_as command)) }
    ensures none { IfNone result ((bidder : ℕ) (token : List ℕ) → IsRange 1 12 bidder → IsRange 1 64 (length token)
        → first_value (found_of matches.now) (codes "BIDDER") ≡ Some (decimal bidder)
        → first_value (found_of matches.now) (codes "TOKEN") ≡ Some token → ⊥) }
{
    let bidder = match read_number(word_of(matches, "BIDDER"), 1, MOST_BIDDERS as u32) {
        Some(bidder) => bidder as u8,
        None => return None,
    };
    let token = word_of(matches, "TOKEN");
    if token.is_empty() || token.len() > LONGEST_TOKEN {
        return None;
    }
    Some(CommandWords::Bid {
        auction: word_of(matches, "AUCTION"),
        values: word_of(matches, "VALUES"),
        bidding: Bidding {
            bidder,
            token,
            address: word_of(matches, "ADDRESS"),
            looks,
        },
    })
}

/// The command `migrate` of the words after its name.
fn read_migrate<'a>(
    alloc: Global,
    words: &'a [&'a str],
) -> Result<Option<CommandWords<'a>>, NoMemory>
    requires { All (λ word. IsPlainWord word.now) words.now }
    ensures some { IfOk result (λ o. IfSome o (λ command. Spells (command_as command) (codes "migrate" ∷ texts words.entry.now))) }
    ensures none { IfOk result (λ o. IfNone o (IsNoCommand (codes "migrate" ∷ texts words.entry.now))) }
{
    let names = ["OLD", "JOURNALS", "NEW", "TARGET"];
    let Some(matches) = named_words(alloc, "migrate", &names, words)? else {
        return Ok(None);
    };
    Ok(migrate_of(&matches))
}

/// The command `migrate` of its words, if the journals that are read are not those that are written.
fn migrate_of<'a>(matches: &ArgMatches<'a>) -> Option<CommandWords<'a>>
    requires { AllByRecursion (λ id. IsSome (first_value (found_of matches.now) id)) migrate_ids }
    ensures some { IfSome result (λ command. IsMigrateOf (found_of matches.now) (command_as command)) }
    ensures none { IfNone result ((word : List ℕ) × (first_value (found_of matches.now) (codes "JOURNALS") ≡ Some word)
        × (first_value (found_of matches.now) (codes "TARGET") ≡ Some word)) }
{
    let journals = word_of(matches, "JOURNALS");
    let target = word_of(matches, "TARGET");
    if journals == target {
        return None;
    }
    Some(CommandWords::Migrate {
        old: word_of(matches, "OLD"),
        journals,
        new: word_of(matches, "NEW"),
        target,
    })
}

/// The terms that these words give.
fn read_terms(
    alloc: Global,
    supply: &str,
    bidders: &str,
    ceiling: &str,
) -> Result<Option<Terms>, NoMemory>
    ensures some { IfOk result (λ o. IfSome o (λ terms. AreTermWords terms supply.now bidders.now ceiling.now)) }
    ensures none { IfOk result (λ o. IfNone o ((terms : TermsValue) → AreTermWords terms supply.now bidders.now ceiling.now → ⊥)) }
{
    match (
        read_goods(alloc, supply)?,
        read_number(bidders, 1, MOST_BIDDERS as u32),
        read_number(ceiling, LEAST_CEILING, GREATEST_CEILING),
    ) {
        (Some(goods), Some(bidders), Some(ceiling)) => {
            match Terms::new(goods, bidders as u8, ceiling) {
                Ok(terms) => Ok(Some(terms)),
                Err(_) => Ok(None),
            }
        }
        _ => Ok(None),
    }
}

/// The prices that a word lists, joined by commas: those of 1 to 6 goods, each at most 10,000.
fn read_prices(alloc: Global, word: &str) -> Result<Option<Prices>, NoMemory>
    ensures some { IfOk result (λ o. IfSome o (λ prices. (word.now ≡ comma_list prices) × AreNumbers 0 GREATEST_CEILING prices)) }
    ensures none { IfOk result (λ o. IfNone o ((prices : List ℕ) → AreNumbers 0 GREATEST_CEILING prices
        → word.now ≡ comma_list prices → ⊥)) }
{
    match read_numbers(alloc, word, 0, GREATEST_CEILING as u16)? {
        None => Ok(None),
        Some(numbers) => Ok(Prices::read(&widened(alloc, &numbers)?)),
    }
}

/// The same numbers.
fn widened(alloc: Global, numbers: &[u16]) -> Result<Vec<u32>, AllocError>
    ensures { IfOk result (λ wide. wide.items ≡ numbers.now) }
{
    let mut wide = Vec::new(alloc);
    for number in numbers {
        wide.push(u32::from(*number))?;
    }
    Ok(wide)
}

/// The goods whose supplies a word lists, joined by commas.
fn read_goods(alloc: Global, word: &str) -> Result<Option<Goods>, NoMemory>
    ensures some { IfOk result (λ o. IfSome o (λ goods. word.now ≡ comma_list goods)) }
    ensures none { IfOk result (λ o. IfNone o ((supply : List ℕ) → IsSupply supply → word.now ≡ comma_list supply → ⊥)) }
{
    match read_numbers(alloc, word, 1, MOST_UNITS)? {
        None => Ok(None),
        Some(supplies) => match Goods::new(&supplies) {
            Ok(goods) => Ok(Some(goods)),
            Err(_) => Ok(None),
        },
    }
}

/// The numbers that a word lists, joined by commas: one for each of 1 to 6 goods, each in a range.
fn read_numbers(
    alloc: Global,
    word: &str,
    low: u16,
    high: u16,
) -> Result<Option<Vec<u16>>, NoMemory>
    ensures some { IfOk result (λ o. IfSome o (λ v. word.now ≡ comma_list v.items)) }
    ensures numbers { IfOk result (λ o. IfSome o (λ v. AreNumbers low high v.items)) }
    ensures none { IfOk result (λ o. IfNone o ((numbers : List ℕ) → AreNumbers low high numbers → word.now ≡ comma_list numbers → ⊥)) }
{
    let mut numbers = Vec::new(alloc);
    let mut rest = word;
    while let Some((piece, behind)) = rest.split_once(',') {
        if !read_piece(&mut numbers, piece, low, high)? {
            return Ok(None);
        }
        rest = behind;
    }
    if !read_piece(&mut numbers, rest, low, high)? {
        return Ok(None);
    }
    Ok(Some(numbers))
}

/// Adds the number in a range that a piece of the list is, and says whether it is one and there was room for it.
fn read_piece(numbers: &mut Vec<u16>, piece: &str, low: u16, high: u16) -> Result<bool, NoMemory>
    requires few { length numbers.old.items ≤ MOST_GOODS }
    requires within { AllByRecursion (IsRange low high) numbers.old.items }
    ensures read { IfOk result (λ b. IsTrue b → (number : ℕ) × (piece.now ≡ decimal number)
        × (numbers.new.items ≡ numbers.old.items ++ number ∷ [])) }
    ensures few { IfOk result (λ _. length numbers.new.items ≤ MOST_GOODS) }
    ensures within { IfOk result (λ _. AllByRecursion (IsRange low high) numbers.new.items) }
    ensures refused { IfOk result (λ b. b ≡ false → (MOST_GOODS ≤ length numbers.old.items)
        ⊎ ((number : ℕ) → IsRange low high number → piece.now ≡ decimal number → ⊥)) }
{
    if numbers.len() >= MOST_GOODS {
        return Ok(false);
    }
    match read_number(piece, u32::from(low), u32::from(high)) {
        Some(number) => {
            numbers.push(number as u16)?;
            Ok(true)
        }
        None => Ok(false),
    }
}
