//! All short lists of a dozen tokens, by a plain slow reader that knows nothing of the machine: it follows each spelling of each form
//! at once, by the sets of places up to which the tokens may be read.
use pql_reader::{PqlFault, read_pql};
use std::alloc::{AllocError, Global};

// What each token stands for, and behind the tokens the end.
const TOKENS: &[(u8, &str)] = &[
    (b'w', "nodes"),
    (b'c', "count"),
    (b'1', "10"),
    (b't', "'x'"),
    (b'{', "{"),
    (b'}', "}"),
    (b'[', "["),
    (b']', "]"),
    (b'(', "("),
    (b')', ")"),
    (b',', ","),
    (b'!', "!"),
    (b'=', "="),
    (b'#', "!="),
    (b'~', "~"),
    (b'a', "and"),
    (b'o', "or"),
    (b'i', "in"),
    (b's', "is"),
    (b'k', "not"),
    (b'n', "null"),
    (b'g', "group"),
    (b'r', "order"),
    (b'b', "by"),
    (b'u', "asc"),
    (b'd', "desc"),
    (b'l', "limit"),
    (b'f', "offset"),
];

// The forms, in capital letters, and their spellings.
const GRAMMAR: &[(u8, &[u8])] = &[
    // a query, and the end
    (b'Q', b"W{FP}."),
    (b'Q', b"W[C]{FG}."),
    (b'W', b"w"),
    (b'W', b"c"),
    // columns; behind a column `count`; behind a function of that name
    (b'C', b"w"),
    (b'C', b"w,C"),
    (b'C', b"c"),
    (b'C', b"c,D"),
    (b'C', b"c()"),
    (b'C', b"c(),E"),
    (b'C', b"c(W)"),
    (b'C', b"c(W),E"),
    (b'D', b"w"),
    (b'D', b"w,D"),
    (b'D', b"c"),
    (b'D', b"c,D"),
    (b'E', b"w"),
    (b'E', b"w,E"),
    // a filter or none, and what is joined
    (b'F', b""),
    (b'F', b"O"),
    (b'O', b"A"),
    (b'O', b"AoO"),
    (b'A', b"N"),
    (b'A', b"NaA"),
    (b'N', b"!N"),
    (b'N', b"X"),
    // conditions
    (b'X', b"(O)"),
    (b'X', b"W{F}"),
    (b'X', b"W=V"),
    (b'X', b"W#V"),
    (b'X', b"W~t"),
    (b'X', b"Wsn"),
    (b'X', b"Wskn"),
    (b'X', b"WiR"),
    (b'X', b"[S]iR"),
    (b'V', b"1"),
    (b'V', b"t"),
    (b'R', b"[L]"),
    (b'R', b"W[C]{FG}"),
    (b'L', b"V"),
    (b'L', b"V,L"),
    (b'S', b"W"),
    (b'S', b"W,S"),
    // groups and paging
    (b'G', b"gbSP"),
    (b'G', b"P"),
    (b'P', b"rbKM"),
    (b'P', b"M"),
    (b'K', b"WY"),
    (b'K', b"WY,K"),
    (b'Y', b""),
    (b'Y', b"u"),
    (b'Y', b"d"),
    (b'M', b"l1Z"),
    (b'M', b"Z"),
    (b'Z', b"f1"),
    (b'Z', b""),
];

// What stands before a list of tokens, a dozen tokens, and what stands behind.
const PLACES: &[(&[u8], &[u8; 12], &[u8])] = &[
    (b"", b"wc1{}[]()!=o", b""),
    (b"w{", b"w1=!()aoi[]{", b"}"),
    (b"w[", b"wct1(),]{[gb", b"]{}"),
    (b"w{wi", b"wc1t,[]{}()a", b"}"),
    (b"w[w]{w=1", b"wg,brudlf1a}", b"}"),
    (b"w{w", b"wt1=#~skn{}o", b"}"),
];

// The tokens of one letter that stand at these places, and the places behind them.
fn behind(tokens: &[u8], token: u8, places: u32) -> u32 {
    let mut place = 1u32;
    let mut found = 0;
    for other in tokens {
        if *other == token {
            found |= places & place;
        }
        place = place.wrapping_mul(2);
    }
    found.wrapping_mul(2)
}

// The places behind these symbols, read from each of those places on, and all places that a token is read up to.
fn read(tokens: &[u8], symbols: &[u8], places: u32, depth: u32) -> (u32, u32) {
    let mut at = places;
    let mut seen = places;
    for symbol in symbols {
        if at == 0 || depth == 0 {
            return (0, seen);
        }
        if symbol.is_ascii_uppercase() {
            let mut ends = 0;
            for (form, spelling) in GRAMMAR {
                if *form == *symbol {
                    let (end, reached) = read(tokens, spelling, at, depth - 1);
                    ends |= end;
                    seen |= reached;
                }
            }
            at = ends;
        } else {
            at = behind(tokens, *symbol, at);
            seen |= at;
        }
    }
    (at, seen)
}

// The number of the first token with which no query goes on, the end being one; None for a query.
fn bad_token(tokens: &[u8]) -> Option<usize> {
    let (ends, seen) = read(tokens, b"Q", 1, 200);
    if ends == 0 {
        Some(31u32.saturating_sub(seen.leading_zeros()) as usize)
    } else {
        None
    }
}

fn word(token: u8) -> &'static str {
    for (letter, word) in TOKENS {
        if *letter == token {
            return word;
        }
    }
    ""
}

// The tokens, each behind a space.
fn text_of(alloc: Global, tokens: &[u8]) -> Result<Vec<u8>, AllocError> {
    let mut text = Vec::new(alloc);
    for token in tokens {
        if *token != b'.' {
            text.push(b' ')?;
            text.extend_from_slice(word(*token).as_bytes())?;
        }
    }
    Ok(text)
}

// Where the token of that number stands in the text.
fn place_of(tokens: &[u8], number: usize) -> usize {
    let mut place = 0usize;
    for (at, token) in tokens.iter().enumerate() {
        if at < number {
            place = place.saturating_add(1).saturating_add(word(*token).len());
        }
        if at == number && *token != b'.' {
            place = place.saturating_add(1);
        }
    }
    place
}

// The list of so many tokens, of those that can be put in its places, by its number.
fn numbered(
    alloc: Global,
    place: &(&[u8], &[u8; 12], &[u8]),
    size: usize,
    number: u32,
) -> Result<Vec<u8>, AllocError> {
    let (before, dozen, behind) = place;
    let mut tokens = Vec::new(alloc);
    tokens.extend_from_slice(before)?;
    let mut left = number;
    for _ in 0..size {
        tokens.push(dozen[(left % 12) as usize])?;
        left /= 12;
    }
    tokens.extend_from_slice(behind)?;
    tokens.push(b'.')?;
    Ok(tokens)
}

fn bad_at(alloc: Global, text: &[u8]) -> Option<usize> {
    match read_pql(alloc, text) {
        Err(PqlFault::PqlBad { at }) => Some(at),
        _ => None,
    }
}

fn wanted_at(tokens: &[u8]) -> Option<usize> {
    match bad_token(tokens) {
        Some(number) => Some(place_of(tokens, number)),
        None => None,
    }
}

#[test]
fn short_lists_are_bad_exactly_where_a_slow_reader_tells_it(
    rt: HostRuntime,
) -> Result<(), AllocError> {
    let alloc = rt.alloc();
    for place in PLACES {
        let mut queries = 0u32;
        for (size, count) in [(0usize, 1u32), (1, 12), (2, 144), (3, 1728)] {
            for number in 0..count {
                let tokens = numbered(alloc, place, size, number)?;
                let found = bad_at(alloc, text_of(alloc, tokens.as_slice())?.as_slice());
                assert!(rt; found == wanted_at(tokens.as_slice()), "{number} of {size}");
                if found.is_none() {
                    queries = queries.saturating_add(1);
                }
            }
        }
        assert!(rt; queries > 0);
    }
    Ok(())
}
