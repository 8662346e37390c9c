//! Laws of weighted times, lists, kinds, comparisons, plans, lanes and events, each the contract of a function that does nothing.
ghost use Rattle.std.specs.Prelude.{◌≡◌, ◌+◌, ◌*◌, ◌/◌, ◌<◌, ◌≤◌, ◌^◌, ◌++◌, ◌∷◌, [], ℕ, Bool, true, false, IfSome, List, Some, count_by, length, map, slice_index, slice_index_or, take, All, filter, flat_map, sum_by, IsPermutation};
ghost use Rattle.serde_json.specs.{Data.{Data, array}, Read.{read}, View.{items_of}};
ghost use Rattle.nl_builds.specs.Builds.{Told as BuildsTold};
ghost use Rattle.nl_reports.specs.{Bars.{drawn_width, long_bar, width_of}, Compare.{Compared, Log, classes, compared, is_of, new_of, of_class, old_of, pairs, told_pair}, Frame.{x_at}, Jobs.{Job, first_name, jobs_from}, Kinds.{kinds, named, of_kind}, Lanes.{Begin, lanes}, Lasting.{Rise, has_outputs, is_among, jobs_left, last_of, lasting, marked, of_name}, Numbers.{total_time}, Critical.{weight as node_weight}, Paths.{IsPath, length_of}, Picture.{bars_of}, Plans.{IsPlan}, Reading.{FewTaken, IsEvent}, Rows.{Told, by_start, spans, told_jobs}, Shares.{AreSharesOf}, Spans.{IsEarly, time_of}, declared.moments.Span.{Span}, Sweep.{alone_time, busy_time, left_over, parts, runs_at, weight}, Times.{job_work, share_of, time_in, times_of, total}, Trace.{array_text, how_in, number_in, scoped_text, trace_events}, Turns.{jobs_in_turn}, declared.kinds.Times.{Times}, declared.choice.Scope.{Scope}, declared.moments.Shares.{Shares}, declared.sides.Rules.{Rules}, declared.frame.Frame.{Frame}};
ghost use Rattle.nl_tool_texts.specs.{Falling.{falling, ranked}, Graphs.{Graph}, Work.{is_same}, declared.kind.KindRule.{KindRule}, declared.kind.Work.{Work}, declared.kind.Work.TheVariants.{Archive, Compile, Generate, Link, Other, Test}};

/// The weighted times of commands, and what is left over, add up to the time in which one command at least runs. What is left over is no
/// more parts of a millisecond than the commands' times have milliseconds. Their shares tell that time, and in how much of it one alone runs.
pub fn weights_add_up()
    ensures weights { (cs : List Span) → sum_by (weight cs) cs + left_over cs ≡ parts * busy_time cs }
    ensures left { (cs : List Span) → left_over cs ≤ sum_by time_of cs }
    ensures sums { (cs : List Span) (s : Shares) → AreSharesOf cs s → (s.sums.busy ≡ busy_time cs) × (s.sums.alone ≡ alone_time cs) }
{}

/// A list is the commands or kinds that it is made of, each once, the largest first, by what it goes by; equal ones stand as before.
pub fn the_largest_come_first()
    ensures each { (rank : Told → ℕ) (ts : List Told) → IsPermutation ts (falling rank ts) }
    ensures order { (rank : Told → ℕ) (ts : List Told) (i j : ℕ) (d : Told) → i ≤ j → j < length (falling rank ts)
        → rank (slice_index_or (falling rank ts) j d) ≤ rank (slice_index_or (falling rank ts) i d) }
    ensures alike { (rank : Told → ℕ) (v : ℕ) (ts : List Told) → ranked rank v (falling rank ts) ≡ ranked rank v ts }
{}

/// Each kind is told once, with the sums of its own commands. The commands of all kinds are those of the build, and their times add up to the
/// sum of its commands' times. Their weighted times, and what is left over, add up to the time in which one command at least runs.
pub fn each_kind_is_its_commands()
    ensures once { (rule : KindRule) (kind : List ℕ) (ts : List Told) → length (named kind (kinds rule ts)) ≤ 1 }
    ensures commands { (rule : KindRule) (kind : List ℕ) (ts : List Told)
        → sum_by (λ (k : Told). k.sums.commands) (named kind (kinds rule ts))
        ≡ sum_by (λ (t : Told). t.sums.commands) (of_kind rule kind ts) }
    ensures times { (rule : KindRule) (kind : List ℕ) (ts : List Told) → sum_by (λ (k : Told). k.sums.time) (named kind (kinds rule ts))
        ≡ sum_by (λ (t : Told). t.sums.time) (of_kind rule kind ts) }
    ensures weights { (rule : KindRule) (kind : List ℕ) (ts : List Told) → sum_by (λ (k : Told). k.sums.weight) (named kind (kinds rule ts))
        ≡ sum_by (λ (t : Told). t.sums.weight) (of_kind rule kind ts) }
    ensures all_commands { (rule : KindRule) (js : List Job) → sum_by (λ (k : Told). k.sums.commands) (kinds rule (told_jobs js)) ≡ length js }
    ensures all_times { (rule : KindRule) (js : List Job) → sum_by (λ (k : Told). k.sums.time) (kinds rule (told_jobs js)) ≡ total_time js }
    ensures all_weights { (rule : KindRule) (js : List Job)
        → sum_by (λ (k : Told). k.sums.weight) (kinds rule (told_jobs js)) + left_over (spans js) ≡ parts * busy_time (spans js) }
{}

/// Of an output its last entry is left, none where it waits, in order. Where places rise, a command keeps its outputs that are left, or goes.
pub fn the_last_entry_of_each_output_is_left()
    ensures last { (names : List (List ℕ)) (t : BuildsTold) (name : List ℕ) → is_among name names ≡ false
        → of_name name (lasting names t).entries ≡ last_of (of_name name t.entries) }
    ensures waiting { (names : List (List ℕ)) (t : BuildsTold) (name : List ℕ) → is_among name names ≡ true
        → of_name name (lasting names t).entries ≡ [] }
    ensures order { (names : List (List ℕ)) (t : BuildsTold) → (marks : List Bool) × ((lasting names t).entries ≡ marked marks t.entries) }
    ensures commands { (names : List (List ℕ)) (t : BuildsTold) → Rise 0 t.commands
        → jobs_from (lasting names t).entries 0 (lasting names t).commands ≡ filter has_outputs (jobs_left names t.entries 0 t.commands) }
{}

/// What is compared are pairs: first each command of the old log, in its order, with one of the new log or alone, then what is left of the new
/// log, each command once. Each is in one class, so the totals of all classes add up to those of all commands, whatever is summed.
pub fn each_command_is_compared_once()
    ensures rows { (rules : Rules) (old new : Log) → compared rules old new ≡ map (told_pair rules old new) (pairs old.jobs new.jobs) }
    ensures old { (js ks : List Job) → flat_map old_of (pairs js ks) ≡ js }
    ensures new { (js ks : List Job) → IsPermutation ks (flat_map new_of (pairs js ks)) }
    ensures front { (rules : Rules) (old new : Log) → map (λ (c : Compared). c.output) (take (length old.jobs) (compared rules old new))
        ≡ map (λ (j : Job). first_name j.outputs) old.jobs }
    ensures one { (c : Compared) → count_by (λ k. is_of k c) classes ≡ 1 }
    ensures sums { (f : Compared → ℕ) (cs : List Compared) → sum_by (λ k. sum_by f (of_class k cs)) classes ≡ sum_by f cs }
{}

/// No lane holds two commands that run at one moment. A command gets a new lane only if so many others run as it begins: its lane's number
/// is at most that of the commands before it that run then. So no other choice has fewer lanes, but for one more if a command took no time.
pub fn no_lane_holds_two_at_once()
    ensures apart { (cs : List Span) (i j t : ℕ) (d : Span) → i < j → j < length cs
        → slice_index (lanes cs) i ≡ slice_index (lanes cs) j → runs_at t (slice_index_or cs i d) ≡ true
        → runs_at t (slice_index_or cs j d) ≡ true → ⊥ }
    ensures few { (cs : List Span) (i : ℕ) (d : Span) → Begin cs → i < length cs → slice_index (lanes cs) i
        ≤ count_by (runs_at (slice_index_or cs i d).began) (take i cs) }
{}

/// The text of any events reads as their array by `serde_json`'s definition, if each number has 64 bits, as in a trace that a memory holds.
pub fn a_trace_reads_as_its_events()
    ensures events { (ds : List Data) → All IsEvent ds → read (array_text ds) ≡ Some (array (items_of ds)) }
    ensures trace { (scope : Scope) (t : BuildsTold) → length (jobs_in_turn scope t) < 2 ^ 63 → number_in scope t < 2 ^ 64
        → IfSome (how_in scope t) FewTaken → read (scoped_text scope t) ≡ Some (array (items_of (trace_events scope t))) }
{}

/// The bar of a command takes at most 400 bytes, its title and its name included, whatever its outputs are called. All bars of a picture,
/// those of short commands too, take at most 400 bytes for each command. A bar stands between where the build begins and where it ends.
pub fn a_bar_takes_at_most_400_bytes()
    ensures one { (f : Frame) (j : Job) (lane : ℕ) → IsEarly j.span → length j.outputs < 2 ^ 63 → lane ≤ f.top
        → f.top < 2 ^ 63 → length (long_bar f j lane) ≤ 400 }
    ensures all { (js : List Job) → All (λ (j : Job). IsEarly j.span) js → All (λ (j : Job). length j.outputs < 2 ^ 63) js
        → length js < 2 ^ 63 → length (bars_of (by_start js)) ≤ 400 * length js }
    ensures within { (f : Frame) (j : Job) → (1000 ≤ x_at f j.span.began) × (x_at f j.span.began + drawn_width (width_of f j) ≤ 15400) }
{}

/// Each command counts for one kind of a picture, so the times of all kinds are those of all commands, and their parts at most a hundred.
pub fn parts_add_up()
    ensures kinds { (js : List Job) (w : Work) → time_in (times_of js) w
        ≡ sum_by (λ (j : Job). time_of j.span) (filter (λ j. is_same w (job_work j)) js) }
    ensures times { (js : List Job) → total (times_of js) ≡ total_time js }
    ensures parts { (t : Times) → share_of t Compile + share_of t Link + share_of t Archive + share_of t Generate
        + share_of t Test + share_of t Other ≤ 100 }
{}

/// No plan for so many processors ends before the critical path does, nor before so many have done all that there is to do.
pub fn no_plan_comes_below_the_floor()
    ensures path { (g : Graph) (js : List Job) (n wall : ℕ) (plan : List Job) → IsPlan g js n wall plan
        → (path : List (List ℕ)) → IsPath g.edges path → length_of (node_weight g.nodes js) path ≤ wall }
    ensures total { (g : Graph) (js : List Job) (n wall : ℕ) (plan : List Job) → IsPlan g js n wall plan → total_time js ≤ n * wall }
{}
