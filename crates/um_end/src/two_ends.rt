//! Laws of two processes of `um end` that receive each other's bursts. The body of a law is empty: call it to use its contract in a proof.
ghost use Rattle.std.specs.Prelude.{◌≡◌, ◌≤◌, ℕ, ℤ, List, length, All};
ghost use Rattle.um_driver.specs.Rules.{Runs};
ghost use Rattle.um_link.specs.lapdm_link.Claims.{Claims, HasNoticesInOrder, AckedAtMostDelivered};
ghost use Rattle.um_link.specs.lapdm_window.Ends.{Role};
ghost use Rattle.um_link.specs.um_air.Air.{Step};
ghost use Rattle.um_end.specs.Terminals.{SideState, ReceivesBursts, answer_to_block};
ghost use Rattle.um_end.specs.TwoTerminals.{TerminalStep, idle_terminals, AreStepsFrom, DeliversOldestBlock, AnyStepAllowed, session_log};
ghost use Rattle.um_end.specs.EndRuns.{EndCommandState, end_command_rules, initial_end_command_state};
ghost use Rattle.um_end.specs.EndTurns.{AnswersLineByStep, AnswersLinesBySteps};

/// If the bursts of each block reach the other side in order and with at most light damage, or are lost as a whole, messages are delivered
/// in order and before they are acknowledged (`Claims`), and no endpoint has more messages acknowledged than its peer has delivered.
/// Whatever bursts arrive, the log is ordered (`HasNoticesInOrder`).
pub fn law_two_terminals_deliver_in_order()
    ensures delivery { (turns : List TerminalStep) → AreStepsFrom DeliversOldestBlock idle_terminals turns
        → Claims (session_log turns) }
    ensures acked_at_most_delivered { (turns : List TerminalStep) → AreStepsFrom DeliversOldestBlock idle_terminals turns →
        AckedAtMostDelivered (session_log turns) }
    ensures order { (turns : List TerminalStep) → AreStepsFrom AnyStepAllowed idle_terminals turns
        → HasNoticesInOrder (session_log turns) }
{}

/// Law: a line that is skipped, or has one of the first three bursts of a block, leaves the endpoints of a process as they are and gets no
/// answer. Every other line that it answers is a step of any two terminals of which the process is one: the call of the line, or the
/// reception of the four bursts of a block, which are those of the last four lines with a burst. The process stays on its side and keeps
/// its training sequence.
pub fn law_end_command_lines_are_terminal_steps()
    ensures { (role : Role) (tsc : ℕ) (lines texts : List (List ℕ)) (after : EndCommandState) → tsc ≤ 7 →
        Runs end_command_rules (initial_end_command_state role tsc) lines texts after →
        AnswersLinesBySteps (initial_end_command_state role tsc) lines texts after }
{}

/// Law: two texts that answer the same line in the same state, as `law_end_command_lines_are_terminal_steps` says, are equal.
pub fn law_end_command_line_has_one_answer()
    ensures { (s : EndCommandState) (line x y : List ℕ) (after other : EndCommandState) → AnswersLineByStep s line x after →
        AnswersLineByStep s line y other → x ≡ y }
{}

/// Law: what a terminal does with four bursts is what `answer_to_block` computes: they are received as a block, and a frame that the
/// accepted octets encode reaches its endpoint.
pub fn law_received_bursts_are_computed()
    ensures holds { (role : Role) (a : SideState) (bursts : List (List ℤ)) → length bursts ≡ 4 →
        All (λ burst. length burst ≡ 148) bursts →
        let next = answer_to_block role a bursts in
        ReceivesBursts role a bursts next.0 next.1 }
    ensures only { (role : Role) (a : SideState) (bursts : List (List ℤ)) (b : SideState) (step : Step) →
        ReceivesBursts role a bursts b step → answer_to_block role a bursts ≡ (b, step) }
{}
