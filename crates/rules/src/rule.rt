// The rules: one function each, and a block's rank among them.
ghost use Rattle.std.specs.Prelude.{◌≡◌, length};
ghost use Rattle.header.specs.Rules.{rule_a, rule_b, rule_c, rule_d, rule_e, rule_f, rule_f_header, rule_g, rule_h, rule_i, rules};
ghost use Rattle.record_octets.specs.Record.{size_of_block, block_in};
ghost use Rattle.rules.specs.Ranks.{rank, whole_rank};

use header::Setting;
use leaves::block::{
    asks_acknowledge, asks_machine, asks_reply, compliance_code, has_cantco, has_cantpro,
    has_identity, has_origin, has_perish, has_requests, has_response, message_size, umf,
};

// Rule (a): without G1 no G7.
#[tactic(auto, unfolding(header::specs::Rules::rule_a))]
fn rule_a(x: Setting, b: &[u8]) -> bool
    requires { length b.now ≡ size_of_block }
    ensures { result ≡ rule_a x (block_in b.now) }
{
    x.originator || !has_requests(b)
}

// Rule (b): with G8 neither G6 nor G7.
#[tactic(auto, unfolding(header::specs::Rules::rule_b))]
fn rule_b(x: Setting, b: &[u8]) -> bool
    requires { length b.now ≡ size_of_block }
    ensures { result ≡ rule_b x (block_in b.now) }
{
    !has_response(b) || (!has_perish(b) && !has_requests(b))
}

// Rule (c): no G4 in UMF 1.
#[tactic(auto, unfolding(header::specs::Rules::rule_c))]
fn rule_c(x: Setting, b: &[u8]) -> bool
    requires { length b.now ≡ size_of_block }
    ensures { result ≡ rule_c x (block_in b.now) }
{
    umf(b) != 1 || !has_identity(b)
}

// Rule (d): nor in UMF 4.
#[tactic(auto, unfolding(header::specs::Rules::rule_d))]
fn rule_d(x: Setting, b: &[u8]) -> bool
    requires { length b.now ≡ size_of_block }
    ensures { result ≡ rule_d x (block_in b.now) }
{
    umf(b) != 4 || !has_identity(b)
}

// Rule (e): no G8 in a compressed message.
#[tactic(auto, unfolding(header::specs::Rules::rule_e))]
fn rule_e(x: Setting, b: &[u8]) -> bool
    requires { length b.now ≡ size_of_block }
    ensures { result ≡ rule_e x (block_in b.now) }
{
    !x.compression || !has_response(b)
}

// Rule (f), of the record: of several blocks the header has its size.
#[tactic(auto, unfolding(header::specs::Rules::rule_f_header))]
fn rule_f_header(x: Setting) -> bool
    ensures { result ≡ rule_f_header x }
{
    !x.several || x.sized
}

// Rule (f), of a block: of several blocks each has its size.
#[tactic(auto, unfolding(header::specs::Rules::rule_f))]
fn rule_f(x: Setting, b: &[u8]) -> bool
    requires { length b.now ≡ size_of_block }
    ensures { result ≡ rule_f x (block_in b.now) }
{
    !x.several || message_size(b).present
}

// Rule (g): a CANTCO reason with R/C 6 alone.
#[tactic(auto, unfolding(header::specs::Rules::rule_g))]
fn rule_g(x: Setting, b: &[u8]) -> bool
    requires { length b.now ≡ size_of_block }
    ensures { result ≡ rule_g x (block_in b.now) }
{
    !has_response(b) || compliance_code(b) == 6 || !has_cantco(b)
}

// Rule (h): a CANTPRO reason with R/C 2 alone.
#[tactic(auto, unfolding(header::specs::Rules::rule_h))]
fn rule_h(x: Setting, b: &[u8]) -> bool
    requires { length b.now ≡ size_of_block }
    ensures { result ≡ rule_h x (block_in b.now) }
{
    !has_response(b) || compliance_code(b) == 2 || !has_cantpro(b)
}

// Rule (i): what G7 asks needs G5.
#[tactic(auto, unfolding(header::specs::Rules::rule_i))]
fn rule_i(x: Setting, b: &[u8]) -> bool
    requires { length b.now ≡ size_of_block }
    ensures { result ≡ rule_i x (block_in b.now) }
{
    let asks = has_requests(b) && (asks_machine(b) || asks_acknowledge(b) || asks_reply(b));
    !asks || has_origin(b)
}

// How many rules a block keeps before the first that it breaks.
#[tactic(auto, unfolding(crate::specs::Ranks::rank))]
pub fn rank_of(x: Setting, b: &[u8]) -> u32
    requires { length b.now ≡ size_of_block }
    ensures { result ≡ rank (rules x) (block_in b.now) }
{
    if !rule_a(x, b) {
        return 0;
    }
    if !rule_b(x, b) {
        return 1;
    }
    if !rule_c(x, b) {
        return 2;
    }
    if !rule_d(x, b) {
        return 3;
    }
    if !rule_e(x, b) {
        return 4;
    }
    if !rule_f(x, b) {
        return 5;
    }
    if !rule_g(x, b) {
        return 6;
    }
    if !rule_h(x, b) {
        return 7;
    }
    if !rule_i(x, b) {
        return 8;
    }
    9
}

// How many the record keeps as a whole: only (f) asks something of it.
#[tactic(auto, unfolding(crate::specs::Ranks::whole_rank))]
pub fn whole_rank(x: Setting) -> u32
    ensures { result ≡ whole_rank (rules x) }
{
    if rule_f_header(x) {
        return 9;
    }
    5
}
