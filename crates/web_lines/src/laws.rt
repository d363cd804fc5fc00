// What holds of what connections talk.
ghost use Rattle.std.specs.Prelude.{◌≡◌, ◌++◌, List, ℕ, Some, codes};
ghost use Rattle.web_lines.specs.FirstBytes.{talk_of};
ghost use Rattle.web_lines.specs.declared.first_bytes.Talk.{Talk};
ghost use Rattle.web_lines.specs.declared.first_bytes.Talk.TheVariants.{Plain, Http};

/// What a connection talks is told once: what comes later does not change it. The first lines of a plain station are
/// plain, and the requests of a browser are HTTP.
pub fn what_talks_is_told_once()
    ensures stays { (front more : List ℕ) (talk : Talk) → talk_of front ≡ Some talk
        → talk_of (front ++ more) ≡ Some talk }
    ensures sit { (more : List ℕ) → talk_of (codes "sit " ++ more) ≡ Some Plain }
    ensures ping { (more : List ℕ) → talk_of (codes "ping" ++ more) ≡ Some Plain }
    ensures get { (more : List ℕ) → talk_of (codes "GET " ++ more) ≡ Some Http }
    ensures head { (more : List ℕ) → talk_of (codes "HEAD " ++ more) ≡ Some Http }
{}
