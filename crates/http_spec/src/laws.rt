//! The laws of requests and answers, for all lists of numbers. Each law is the contract of a function that does nothing.
ghost use Rattle.std.specs.Prelude.{◌≡◌, ◌↔◌, ◌⊎◌, ℕ, ◌≤◌, ◌<◌, ◌+◌, ◌++◌, [], ◌∷◌, List, length, Some, None, true, false, codes};
ghost use Rattle.std.specs.List.{AllByRecursion};
ghost use Rattle.std.specs.Str.{str_eq_ignore_ascii_case};
ghost use Rattle.httparse.specs.Grammar.{RequestHead, IsRequestHead, print_request, ReadsRequest};
ghost use Rattle.httparse.specs.Ascii.{crlf_bytes};
ghost use Rattle.http_spec.specs.HeadText.{IsHeadText};
ghost use Rattle.http_spec.specs.HeadEnd.{head_at};
ghost use Rattle.http_spec.specs.Framing.{sized, refused, heads_of, is_named, values_of, first_of, framing, ends_link};
ghost use Rattle.http_spec.specs.Requests.{HasFault, IsCut, IsRequestOf, BeginsWithRequest, Front, request, IsFront, End, faulty, AreRequests, RequestsOf};
ghost use Rattle.http_spec.specs.Answers.{answer_text, fault_answer, memory_answer};
ghost use Rattle.http_spec.specs.Examples.{two_requests, nodes_request, no_rows, two_answers, field};
ghost use Rattle.http_spec.specs.Examples.{counted_rows, counted_answer, seen_rows, seen_answer, seen_twice};
ghost use Rattle.json_tree.specs.Limits.{most_payload};
ghost use Rattle.http_spec.specs.Limits.{most_head, most_lines};

use crate::request::{Head, HttpFault, Request};

/// At most one prefix of some bytes is a head's text, and the function gives the bytes after it.
pub fn a_head_ends_once()
    ensures ends { (bytes text rest : List ℕ) (lines : List (List ℕ)) → IsHeadText text lines → bytes ≡ text ++ rest
        → head_at bytes ≡ Some (length lines, rest) }
    ensures stands { (bytes rest : List ℕ) (n : ℕ) → head_at bytes ≡ Some (n, rest)
        → (text : List ℕ) × (lines : List (List ℕ)) × IsHeadText text lines × (bytes ≡ text ++ rest) × (length lines ≡ n) }
{}

/// A head of the grammar is a head's text with one line per field. So a head read from a head's text covers all of it.
pub fn a_head_has_a_line_for_each_field()
    ensures text { (h : RequestHead) → IsRequestHead h
        → (lines : List (List ℕ)) × IsHeadText (print_request h) lines × (length lines ≡ length h.fields) }
    ensures all { (text behind : List ℕ) (lines : List (List ℕ)) (h : RequestHead) → IsHeadText text lines → ReadsRequest text h behind
        → (length lines ≡ length h.fields) × ([] ≡ behind) }
{}

/// Bytes begin with at most one of a request, a fault and a cut.
pub fn one_thing_stands_at_the_front()
    ensures { (bytes : List ℕ) (x y : Front) (a b : List ℕ) → IsFront x bytes a → IsFront y bytes b → (x ≡ y) × (a ≡ b) }
{}

/// Bytes always begin with one of these (stated as a double negation).
pub fn something_stands_at_the_front()
    ensures { (bytes : List ℕ) → ((x : Front) (after : List ℕ) → ¬ IsFront x bytes after) → ⊥ }
{}

/// If a head of the grammar is within the limits, and the body has the stated length, they are read as their request.
pub fn a_request_is_read_as_itself()
    ensures { (h : RequestHead) (body more : List ℕ) (r : Request) → IsRequestHead h → length h.fields ≤ most_lines
        → length (print_request h) ≤ most_head → framing h.method (heads_of h.fields) ≡ sized (length body) → IsRequestOf h body r
        → IsFront (request r) (print_request h ++ (body ++ more)) more }
{}

/// If a head of the grammar is within the limits, but its fields leave the body's length unknown, that fault is found.
pub fn a_head_is_refused_for_its_fields()
    ensures { (h : RequestHead) (more : List ℕ) (f : HttpFault) → IsRequestHead h → length h.fields ≤ most_lines → length (print_request h) ≤ most_head
        → framing h.method (heads_of h.fields) ≡ refused f → HasFault f (print_request h ++ more) }
{}

/// A head's text that is too long or has too many lines is refused as too large.
pub fn a_large_head_is_refused()
    ensures { (text more : List ℕ) (lines : List (List ℕ)) → IsHeadText text lines → (most_head < length text) ⊎ (most_lines < length lines)
        → HasFault HttpFault.HeadTooLarge (text ++ more) }
{}

/// A request or a fault that was found stays the same, whatever bytes follow. Only a cut can change, and cut bytes are few.
pub fn what_is_told_stays()
    ensures request { (r : Request) (bytes more after : List ℕ) → IsFront (request r) bytes after → IsFront (request r) (bytes ++ more) (after ++ more) }
    ensures fault { (f : HttpFault) (bytes more : List ℕ) → HasFault f bytes → HasFault f (bytes ++ more) }
    ensures cut { (bytes : List ℕ) → IsCut bytes → length bytes < most_head + most_payload }
    ensures takes { (r : Request) (bytes after : List ℕ) → BeginsWithRequest r bytes after → length after < length bytes }
{}

/// The bytes of a connection have at most one reading as a list of requests and an end.
pub fn a_link_has_one_reading()
    ensures front { (bytes : List ℕ) (rs ss : List Request) (d e : End) → AreRequests bytes rs d → AreRequests bytes ss e → (rs ≡ ss) × (d ≡ e) }
    ensures link { (bytes : List ℕ) (rs ss : List Request) (d e : End) → RequestsOf bytes rs d → RequestsOf bytes ss e → (rs ≡ ss) × (d ≡ e) }
{}

/// The bytes of a connection always have such a reading (stated as a double negation).
pub fn a_link_has_a_reading()
    ensures { (bytes : List ℕ) → ((rs : List Request) (d : End) → ¬ RequestsOf bytes rs d) → ⊥ }
{}

/// Examples of body lengths, and of refused lengths.
pub fn lengths_are_told_so()
    ensures posted { framing (codes "POST") (field (codes "Content-Length") (codes "5") ∷ []) ≡ sized 5 }
    ensures any_case { framing (codes "POST") (field (codes "CONTENT-length") (codes "007") ∷ []) ≡ sized 7 }
    ensures none { framing (codes "POST") [] ≡ refused HttpFault.NoLength }
    ensures no_body { framing (codes "GET") (field (codes "Host") (codes "a") ∷ []) ≡ sized 0 }
    ensures not_post { framing (codes "post") [] ≡ sized 0 }
    ensures coded { framing (codes "GET") (field (codes "Content-Length") (codes "x") ∷ field (codes "Transfer-Encoding") (codes "identity") ∷ [])
        ≡ refused HttpFault.NoLength }
    ensures twice { framing (codes "PUT") (field (codes "Content-Length") (codes "5") ∷ field (codes "content-length") (codes "5") ∷ []) ≡ sized 5 }
    ensures differ { framing (codes "PUT") (field (codes "Content-Length") (codes "5") ∷ field (codes "content-length") (codes "05") ∷ [])
        ≡ refused HttpFault.BadLength }
    ensures sign { framing (codes "GET") (field (codes "Content-Length") (codes "+5") ∷ []) ≡ refused HttpFault.BadLength }
    ensures empty { framing (codes "GET") (field (codes "Content-Length") (codes "") ∷ []) ≡ refused HttpFault.BadLength }
    ensures listed { framing (codes "GET") (field (codes "Content-Length") (codes "5, 5") ∷ []) ≡ refused HttpFault.BadLength }
    ensures most { framing (codes "GET") (field (codes "Content-Length") (codes "16777216") ∷ []) ≡ sized 16_777_216 }
    ensures more { framing (codes "GET") (field (codes "Content-Length") (codes "16777217") ∷ []) ≡ refused HttpFault.BodyTooLarge }
    ensures far { framing (codes "GET") (field (codes "Content-Length") (codes "18446744073709551621") ∷ []) ≡ refused HttpFault.BodyTooLarge }
{}

/// The first field of a name is found in any case of the name. No value is found exactly if no field has the name.
pub fn the_first_field_of_a_name_is_found()
    ensures found { (name : List ℕ) (before after : List Head) (head : Head) → AllByRecursion (λ h. is_named name h ≡ false) before
        → is_named name head ≡ true → first_of (values_of name (before ++ head ∷ after)) ≡ Some head.value }
    ensures none { (name : List ℕ) (heads : List Head) → (first_of (values_of name heads) ≡ None) ↔ AllByRecursion (λ h. is_named name h ≡ false) heads }
    ensures any_case { (name other : List ℕ) (heads : List Head) → str_eq_ignore_ascii_case name other ≡ true
        → first_of (values_of name heads) ≡ first_of (values_of other heads) }
    ensures twice { first_of (values_of (codes "X-Fleet-Seen") seen_twice) ≡ Some (codes "7") }
    ensures longer { first_of (values_of (codes "X-Fleet-Seen-By") seen_twice) ≡ None }
{}

/// Examples of requests that close their connection, and of others.
pub fn links_end_so()
    ensures old { ends_link 0 (field (codes "Connection") (codes "keep-alive") ∷ []) ≡ true }
    ensures kept { ends_link 1 (field (codes "Host") (codes "close") ∷ []) ≡ false }
    ensures any_case { ends_link 1 (field (codes "connection") (codes "Close") ∷ []) ≡ true }
    ensures listed { ends_link 1 (field (codes "Connection") (codes "TE, close") ∷ []) ≡ true }
    ensures other { ends_link 1 (field (codes "Connection") (codes "closed") ∷ []) ≡ false }
{}

/// An example: a request and then an invalid head, with what is read and answered.
pub fn two_requests_are_read_and_answered_so()
    ensures read { AreRequests two_requests (nodes_request ∷ []) (faulty HttpFault.BadHead) }
    ensures answered { answer_text no_rows ++ answer_text (fault_answer HttpFault.BadHead) ≡ two_answers }
    ensures memory { answer_text memory_answer ≡ codes "HTTP/1.1 500 Internal Server Error" ++ crlf_bytes
        ++ codes "Content-Type: application/json" ++ crlf_bytes ++ codes "Content-Length: 25" ++ crlf_bytes
        ++ codes "Connection: close" ++ crlf_bytes ++ crlf_bytes ++ codes "{\"error\":\"out of memory\"}" }
{}

/// Examples: the number of rows comes first, then how much was seen; either may be absent.
pub fn numbers_are_printed_so()
    ensures both { answer_text counted_rows ≡ counted_answer }
    ensures seen { answer_text seen_rows ≡ seen_answer }
{}
