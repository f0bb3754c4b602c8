//! Laws of passwords, on which users rely. Each function does nothing: its contract states the law,
//! for all persons, texts and moments.
ghost use Rattle.std.specs.Prelude.{◌≡◌, ◌≢◌, ℕ, Bool, ◌+◌, ◌-◌, ◌<◌, List, [], ◌∷◌, ◌++◌, length, nat_lt, true, false, Option, Some, None, Ok, Err};
ghost use Rattle.hex.specs.Hex.{encode_lower};
ghost use Rattle.lab_forms_texts.specs.declared.tick.Tick.{Tick as AnyTick};
ghost use Rattle.lab_seal_hashes.specs.Words.{one_time_word};
ghost use Rattle.lab_people_access.specs.declared.persons.Person.{Person as AnyPerson};
ghost use Rattle.lab_people_access.specs.declared.sessions.Session.{Session as AnySession};
ghost use Rattle.lab_people_access.specs.declared.refusals.Failure.{Failure as AnyFailure};
ghost use Rattle.lab_people_access.specs.declared.refusals.Failure.TheVariants.{Locking, AlreadyLocked};
ghost use Rattle.lab_people.specs.declared.issues.Issued.{Issued as AnyIssued};
ghost use Rattle.lab_people.specs.Laws.{Try, person_after, HasAccount, IsWrong, AreWrong, IsWordGiven, AreClosed};
ghost use Rattle.lab_people_access.specs.Passwords.{accepts, serves};
ghost use Rattle.lab_people_access.specs.Persons.{is_locked, unlocked_person};
ghost use Rattle.lab_people_access.specs.Attempts.{failures_to_lock, attempt_by, attempt_of, signing_attempt, counted_person, locked_person};
ghost use Rattle.lab_people_access.specs.Refusals.{failure_person, failure_closing};
ghost use Rattle.lab_people_access.specs.Sessions.{sessions_after};

/// Law: wrong passwords in a row are counted, and the one that brings the count to
/// `failures_to_lock` locks the account. No earlier one locks it.
pub fn repeated_failures_lock()
    ensures earlier { (person : AnyPerson) (tries : List Try) → HasAccount person →
        person.locked ≡ None → AreWrong person tries →
        person.failures + length tries < failures_to_lock →
        person_after person tries ≡ Some (counted_person (person.failures + length tries) person) }
    ensures last { (person : AnyPerson) (before : List Try) (last : Try) → HasAccount person →
        person.locked ≡ None → AreWrong person before →
        person.failures + length before ≡ failures_to_lock - 1 →
        IsWrong person last →
        person_after person (before ++ (last ∷ [])) ≡ Some (locked_person last.moment person) }
    ensures locking { (person : AnyPerson) (last : Try) → HasAccount person → person.locked ≡ None →
        person.failures ≡ failures_to_lock - 1 → IsWrong person last →
        attempt_of (Some person) last.text last.moment
        ≡ Err (Locking (locked_person last.moment person)) }
{}

/// Law: an attempt that locks a person leaves no session of the person open, whether it opens a
/// session, signs or changes the password.
pub fn a_lock_closes_all_sessions()
    ensures { (person after : AnyPerson) (is_own : Bool) (text : List ℕ) (moment : ℕ)
        (failure : AnyFailure) (sessions : List AnySession) →
        attempt_by person is_own text moment ≡ Err failure →
        failure_person failure ≡ Some after →
        is_locked person.locked moment ≡ false → is_locked after.locked moment ≡ true →
        AreClosed person.code (sessions_after (failure_closing failure) person.code sessions) }
{}

/// Law: a lock lasts 1,800 seconds, to the second. After that a right password is accepted, and a
/// wrong one counts as the first again.
pub fn a_lock_lasts_half_an_hour()
    ensures locked { (since seconds : ℕ) →
        is_locked (Some since) (since + seconds) ≡ nat_lt seconds 1800 }
    ensures accepted { (person : AnyPerson) (text : List ℕ) (since moment : ℕ) → HasAccount person →
        person.locked ≡ Some since → is_locked (Some since) moment ≡ false →
        accepts person.password text moment ≡ true →
        attempt_of (Some person) text moment ≡ Ok (unlocked_person person) }
    ensures first { (person : AnyPerson) (one : Try) (since : ℕ) → HasAccount person →
        person.locked ≡ Some since → is_locked (Some since) one.moment ≡ false →
        IsWrong person one →
        person_after person (one ∷ []) ≡ Some (counted_person 1 person) }
{}

/// Law: while a person is locked, every password is refused, whatever the code is, and leaves the
/// person, the count and the lock as before.
pub fn an_attempt_leaves_a_lock()
    ensures { (person : AnyPerson) (is_own : Bool) (text : List ℕ) (moment : ℕ) →
        HasAccount person → is_locked person.locked moment ≡ true →
        attempt_by person is_own text moment ≡ Err (AlreadyLocked person) }
{}

/// Law: if the code of another person is given for a signature, the result is that of a wrong
/// password, whatever the password is.
pub fn another_code_is_a_wrong_password()
    ensures { (person : AnyPerson) (code text wrong : List ℕ) (moment : ℕ) → code ≢ person.code →
        accepts person.password wrong moment ≡ false →
        signing_attempt person (Some code) text moment ≡ signing_attempt person None wrong moment }
{}

/// Law: the two halves of a one-time word, which two administrators were given, make together the
/// text that the person's password accepts, exactly while the word is valid. Neither half alone is
/// accepted.
pub fn the_halves_make_the_word()
    ensures together { (person : Option AnyPerson) (caller other : List ℕ) (tick later : AnyTick)
        (asked confirmed : AnyIssued) (moment : ℕ) →
        IsWordGiven person caller other tick later asked confirmed →
        accepts confirmed.person.password (one_time_word asked.half confirmed.half) moment
        ≡ serves later.moment moment }
    ensures alone { (person : Option AnyPerson) (caller other : List ℕ) (tick later : AnyTick)
        (asked confirmed : AnyIssued) (moment : ℕ) →
        IsWordGiven person caller other tick later asked confirmed →
        (accepts confirmed.person.password (encode_lower asked.half) moment ≡ false)
        × (accepts confirmed.person.password (encode_lower confirmed.half) moment ≡ false) }
{}
