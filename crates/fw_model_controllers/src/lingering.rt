ghost use Rattle.std.specs.Prelude.{◌≡◌, ◌≢◌, ◌<◌, ℕ, Some, IsTrue};
ghost use Rattle.fw_terms.specs.declared.plug.PlugAt.{PlugAt};
ghost use Rattle.fw_csr.specs.declared.reply.Reply.{Reply};
ghost use Rattle.fw_log_entry.specs.declared.entry.Entry.{Entry};
ghost use Rattle.fw_plug.specs.Plugs.{is_active};
ghost use Rattle.fw_model_account.specs.Account.{Account, talks};
ghost use Rattle.fw_model_account.specs.Fold.{next_account};
ghost use Rattle.fw_model_account.specs.Moves.{Move, Can, after};
ghost use Rattle.fw_model_account.specs.Network.{is_output};
ghost use Rattle.fw_model_account.specs.Sound.{IsSound};
ghost use Rattle.fw_model_account.specs.Words.{OutputPlug, word_of};
ghost use Rattle.fw_cmp_jobs.specs.declared.job.Job.{Job};
ghost use Rattle.fw_cmp_jobs.specs.declared.request.Target.{Target};
ghost use Rattle.fw_cmp_jobs.specs.declared.stage.Stage.{Stage};
ghost use Rattle.fw_model_controllers.specs.InStep.{Others, HalfStep};
ghost use Rattle.fw_model_controllers.specs.Moves.{carried_out};
ghost use Rattle.fw_model_controllers.specs.Registers.{register_at};
ghost use Rattle.fw_model_controllers.specs.Lingering.{LingerUnchanged, LingerAfter};

/// Which output plugs linger is told by the words of their registers. A move ends the lingering of a plug exactly if it
/// changes the plug's word, and so does the answer to a stage's request, of no plug but that of the request's register. Of the
/// entries of any log a packet ends it so, after a bus reset the plugs that were active linger, after the second none does, and
/// all other entries leave it. A plug talks if its word says that it is connected or it lingers.
pub fn plugs_linger_by_their_words()
    ensures moves { (c : ℕ) (p : PlugAt) (m : Move) (l : Account) → c < 63 → IsSound l → Can c p m l → LingerUnchanged l (after c p m l) }
    ensures answer { (l : Account) (c : ℕ) (j : Job) (s : Stage) (others : Others) (t : Target) (r : Reply) → c < 63 → IsSound l
        → HalfStep l c j s others t r → LingerUnchanged l (carried_out c j s r l) }
    ensures elsewhere { (l : Account) (c : ℕ) (j : Job) (s : Stage) (others : Others) (t : Target) (r : Reply) (q : PlugAt) → c < 63 → IsSound l
        → HalfStep l c j s others t r → OutputPlug q ≢ register_at t → (carried_out c j s r l).continues q ≡ l.continues q }
    ensures entries { (l m : Account) (e : Entry) → IsSound l → next_account l e ≡ Some m → LingerAfter e l m }
    ensures talks { (l : Account) (p : PlugAt) → IsSound l → IsTrue (is_output l.latest p)
        → is_active (word_of l (OutputPlug p)) (l.continues p) ≡ talks l p }
{}
