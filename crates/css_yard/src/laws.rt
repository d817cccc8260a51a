//! Laws of ends and values. Each is what the contract of an empty function says.
ghost use Rattle.std.specs.Prelude.{◌≡◌, ◌++◌, ◌∷◌, [], ℕ, List, Contains};
ghost use Rattle.css_base.specs.declared.ending.Stop.{Stop};
ghost use Rattle.css_base.specs.declared.limits.Limits.{Limits};
ghost use Rattle.css_record.specs.declared.version.VersionName.{VersionName};
ghost use Rattle.css_record.specs.declared.version.VersionName.TheVariants.{Made};
ghost use Rattle.css_record.specs.declared.task_record.TaskRecord.{TaskRecord};
ghost use Rattle.css_vm.specs.Code.{Code};
ghost use Rattle.css_task.specs.Alone.{End};
ghost use Rattle.css_yard.specs.Values.{Submit, Ends, IsValue, IsFirstStop};
ghost use Rattle.css_yard.specs.Yards.{MaySubmit};
ghost use Rattle.css_yard.specs.Submits.{AreSubmitted};

/// A task comes to one end at most.
pub fn one_end()
    ensures { (code : Code) (limits : Limits) (units : ℕ) (submits : List Submit) (number : ℕ) (a b : End) → AreSubmitted code limits submits → Ends code units submits number a → Ends code units submits number b → a ≡ b }
{}

/// A version has one value at most.
pub fn one_value()
    ensures { (code : Code) (limits : Limits) (units : ℕ) (submits : List Submit) (given : List (List ℕ)) (version : VersionName) (x y : List ℕ) → AreSubmitted code limits submits
        → IsValue code units submits given version x → IsValue code units submits given version y → x ≡ y }
{}

/// A generation has one first stop at most.
pub fn one_first_stop()
    ensures { (code : Code) (limits : Limits) (units : ℕ) (submits : List Submit) (number number' : ℕ) (stop stop' : Stop) (line line' : ℕ) → AreSubmitted code limits submits
        → IsFirstStop code units submits number stop line → IsFirstStop code units submits number' stop' line' → (number ≡ number') × (stop ≡ stop') × (line ≡ line') }
{}

/// What is submitted later changes no end of a task that was submitted before.
pub fn later_submits_change_no_end()
    ensures kept { (code : Code) (units : ℕ) (submits more : List Submit) (number : ℕ) (end : End) → Ends code units submits number end → Ends code units (submits ++ more) number end }
    ensures none_new { (code : Code) (limits : Limits) (units : ℕ) (submits more : List Submit) (s : Submit) (end : End) → AreSubmitted code limits (submits ++ more) → Contains submits s
        → Ends code units (submits ++ more) s.rec.number end → Ends code units submits s.rec.number end }
{}

/// And no value that it makes.
pub fn later_submits_change_no_value()
    ensures kept { (code : Code) (units : ℕ) (submits more : List Submit) (given : List (List ℕ)) (version : VersionName) (bytes : List ℕ) → IsValue code units submits given version bytes → IsValue code units (submits ++ more) given version bytes }
    ensures none_new { (code : Code) (limits : Limits) (units : ℕ) (submits more : List Submit) (s : Submit) (given : List (List ℕ)) (out : ℕ) (bytes : List ℕ) → AreSubmitted code limits (submits ++ more) → Contains submits s
        → IsValue code units (submits ++ more) given (Made s.rec.number out) bytes → IsValue code units submits given (Made s.rec.number out) bytes }
{}

/// A generation begins with no submit, and goes on with any that may be submitted then.
pub fn generations_grow()
    ensures none { (code : Code) (limits : Limits) → AreSubmitted code limits [] }
    ensures one_more { (code : Code) (limits : Limits) (submits : List Submit) (r : TaskRecord) (given : List (List ℕ)) → AreSubmitted code limits submits → MaySubmit code limits submits r given
        → AreSubmitted code limits (submits ++ record { rec = r; given = given } ∷ []) }
{}
