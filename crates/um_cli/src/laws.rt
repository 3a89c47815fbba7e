//! Laws of the commands, which the contract of `run` rests on. A law does nothing at run time; its contract states a theorem.
ghost use Rattle.std.specs.Prelude.{ℕ, ◌≤◌, List};
ghost use Rattle.um_cli.specs.Headline.{DecodesToMostLikelyWords, EverySessionDelivers};
ghost use Rattle.um_cli.specs.Restored.{ReplayRecoversCodeInput};
ghost use Rattle.um_cli.specs.Shapes.{HasValidOperands};
ghost use Rattle.um_cli.specs.declared.words.Invocation.{Invocation};
ghost use Rattle.um_end.specs.lapdm_frame.declared.Channel.{Channel};

/// Law: `replay`, `link` and `end` decode each block or single burst to a codeword that is at least as likely as any other, given the soft
/// values received, and accept its data if and only if its CRC holds.
pub fn law_decoded_words_are_most_likely()
    ensures { (command : Invocation) → HasValidOperands command → DecodesToMostLikelyWords command }
{}

/// Law: after any lines that `link` answers, the log of the session is ordered, and the claims about delivery hold if the session is
/// benign, as it is if no event inverts more than three bits of a block.
pub fn law_every_session_delivers()
    ensures { (tsc : ℕ) (channel : Channel) → tsc ≤ 7 → EverySessionDelivers tsc channel }
{}

/// Law: `replay` recovers the information given to `code` from the output of `code`.
pub fn law_replay_recovers_code_input()
    ensures { (input bursts : List ℕ) → ReplayRecoversCodeInput input bursts }
{}
