//! Features and their options: FEAT, OPTS (RFC 2389, sections 3 and 4; RFC 3659, section 7).

ghost use Rattle.std.specs.Prelude.{◌≡◌, IfOk, OnErr, codes, map};
ghost use Rattle.ftp_reply.specs.Replies.{SeveralLines};
ghost use Rattle.ftp_terms.specs.LineText.{text_of};
ghost use Rattle.ftp_wire.specs.Written.{has_facts};
ghost use Rattle.session_table.specs.Plans.Plan.{Then};
ghost use Rattle.session_table.specs.StateRows.{facts_answer, facts_row, feat_row, features, opts_row};
ghost use Rattle.session_table.specs.declared.answers.Answer.TheVariants.{Made};

use ftp_reply::{Reply, ReplyCode};
use ftp_terms::{Facts, LineText};
use ftp_wire::{FeatureOption, facts_text, starred_facts_text};
use session_state::{RowResult, State, made, push_reserved, with_room};
use session_table::{Answer, Notice};
use std::alloc::{AllocError, Allocator};

fn has_facts(facts: Facts) -> bool
    ensures facts { result ≡ has_facts facts }
{
    facts.kind || facts.size || facts.modify || facts.perm
}

/// The reply to OPTS MLST.
fn facts_answer<A: Allocator + Clone>(alloc: A, facts: Facts) -> Result<Answer<A>, AllocError>
    ensures reply { IfOk result (λ reply. reply ≡ facts_answer facts) }
{
    if has_facts(facts) {
        let names = facts_text(alloc.clone()?, facts)?;
        let text = LineText::joined(alloc, "MLST OPTS ", names.as_str(), "")?;
        return Ok(made(200, text));
    }
    Ok(Answer::Notice(Notice::NoFactsInForce))
}

/// The lines inside the reply to FEAT.
fn features<A: Allocator + Clone>(alloc: A, facts: Facts) -> Result<Vec<LineText<A>, A>, AllocError>
    ensures lines { IfOk result (λ lines. map text_of lines.items ≡ features facts) }
{
    let stars = starred_facts_text(alloc.clone()?, facts)?;
    let listing = LineText::joined(alloc.clone()?, " MLST ", stars.as_str(), "")?;
    let mut lines = with_room(alloc, 7)?;
    push_reserved(&mut lines, LineText::fixed(" EPRT"));
    push_reserved(&mut lines, LineText::fixed(" EPSV"));
    push_reserved(&mut lines, LineText::fixed(" MDTM"));
    push_reserved(&mut lines, listing);
    push_reserved(&mut lines, LineText::fixed(" REST STREAM"));
    push_reserved(&mut lines, LineText::fixed(" SIZE"));
    push_reserved(&mut lines, LineText::fixed(" UTF8"));
    Ok(lines)
}

fn features_answer<A: Allocator + Clone>(alloc: A, facts: Facts) -> Result<Answer<A>, AllocError>
    ensures reply { IfOk result (λ reply.
        reply ≡ Made (SeveralLines 211 (codes "Features") (features facts) (codes "End"))) }
{
    let lines = features(alloc, facts)?;
    let first = LineText::fixed("Features");
    let last = LineText::fixed("End");
    Ok(Answer::Made(Reply::several_lines(ReplyCode::new(211), first, lines, last)))
}

/// FEAT (RFC 2389, section 3).
pub fn feat_row<A: Allocator + Clone, R: Drop, K: Drop>(state: &State<A>) -> RowResult<A, R, K>
    ensures row { IfOk result (λ actions. Then state.now actions.items ≡ feat_row state.now) }
{
    let answer = features_answer(state.alloc()?, state.facts())?;
    state.reply(answer)
}

fn facts_row<A: Allocator + Clone, R: Drop, K: Drop>(
    state: &mut State<A>,
    facts: Facts,
) -> RowResult<A, R, K>
    ensures row { IfOk result (λ actions.
        Then state.new actions.items ≡ facts_row state.old facts) }
    ensures unchanged { OnErr result (state.new ≡ state.old) }
{
    let answer = facts_answer(state.alloc()?, facts)?;
    let actions = state.reply(answer)?;
    state.set_facts(facts);
    Ok(actions)
}

/// OPTS (RFC 2389, section 4; RFC 3659, section 7.9).
pub fn opts_row<A: Allocator + Clone, R: Drop, K: Drop>(
    state: &mut State<A>,
    wanted: FeatureOption,
) -> RowResult<A, R, K>
    ensures row { IfOk result (λ actions.
        Then state.new actions.items ≡ opts_row state.old wanted) }
    ensures unchanged { OnErr result (state.new ≡ state.old) }
{
    match wanted {
        FeatureOption::Utf8On => state.reply_notice(Notice::Utf8IsOn),
        FeatureOption::Mlst(facts) => facts_row(state, facts),
    }
}
