//! The responses to requests.
ghost use Rattle.std.specs.Prelude.{◌≡◌, ℕ, List, OnOk, option_copied};
ghost use Rattle.http.specs.Request.{head_of};
ghost use Rattle.http_server.specs.Response.{IsBlank};
ghost use Rattle.status_server.specs.Answers.{AnswersOn, AnswersSo, CarriesOut, IsPlanned, SendsJudged, SendsKnownApi, SendsKnownExport};
ghost use Rattle.status_server.specs.Answers.{SendsKnownHealth, SendsKnownList, SendsKnownReady, SendsKnownValidity, SendsQuery, SendsRoute};
ghost use Rattle.status_server.specs.Responses.{Sends, body_headers, metrics_kind, page_headers};

use crate::conditions::prefers_html;
use crate::list_forms::{ExportForm, ListForm};
use crate::plan::{Plan, plan_of};
use crate::representations::{
    send_api_status, send_export, send_form_page, send_health, send_list, send_ok, send_ready,
    send_validity, send_validity_page, shared,
};
use crate::resources::{Resource, route_in};
use crate::responses::{
    METRICS, add_date, add_vary, refuse_early, refuse_host, refuse_method, refuse_name,
    refuse_path, send_page, send_shared, send_text,
};
use crate::status_source::StatusSource;
use bytes::Bytes;
use http::{HeaderMap, Request, StatusCode};
use http_server::{Response, Service};
use prefixes::Route;
use status_pages::{QueryFault, Status, read_path, read_query, write_metrics, write_page};
use std::alloc::{AllocError, Global};
use std::marker::Model;

/// The HTTP service over a source of status, for one turn. The status, the page and the metrics are made once in a turn, and shared.
#[derive(Drop)]
pub(crate) struct Answers<'a, S: StatusSource> {
    alloc: Global,
    source: &'a mut S,
    /// The name under which requests are served, besides addresses.
    name: Option<&'a str>,
    status: Option<Status>,
    page: Option<Bytes>,
    metrics: Option<Bytes>,
}

impl<'a, S: StatusSource> Model for Answers<'a, S> {
    ghost use Rattle.std.specs.Prelude.{IfSome, option_copied};
    ghost use Rattle.status_server.specs.Answers.{Answering, IsShown};

    ghost Value = { Answering S };

    ghost view = { λ v. record { source = v.source.now; name = option_copied v.name } };

    ghost invariant = { λ v. IfSome v.status (λ status. IsShown (S.shows v.source.now).status status) };
}

impl<'a, S: StatusSource> Answers<'a, S> {
    /// The service for a turn that begins.
    pub(crate) fn new(alloc: Global, source: &'a mut S, name: Option<&'a str>) -> Answers<'a, S>
        ensures { result ≡ record { source = source.old; name = option_copied name.entry } }
    {
        Answers {
            alloc,
            source,
            name,
            status: None,
            page: None,
            metrics: None,
        }
    }

    /// Loads the status of this turn, if it is not loaded yet.
    fn load_status(&mut self) -> Result<(), AllocError>
        ensures { AnswersOn S.shows self.old self.new }
    {
        if self.status.is_none() {
            self.status = Some(self.source.status()?);
        }
        Ok(())
    }

    /// The text of the status page in this turn.
    fn page_text(&mut self) -> Result<Bytes, AllocError>
        ensures { AnswersOn S.shows self.old self.new }
    {
        if let Some(page) = &self.page {
            return page.clone();
        }
        self.load_status()?;
        let Some(status) = &self.status else {
            return Err(AllocError);
        };
        let mut text = Vec::new(self.alloc);
        if write_page(&mut text, status).is_err() {
            return Err(AllocError);
        }
        let page = shared(text)?;
        self.page = Some(page.clone()?);
        Ok(page)
    }

    /// The status page.
    fn page(&mut self, response: &mut Response) -> Result<(), AllocError>
        ensures sends { OnOk result ((text : List ℕ) × Sends response.old.status page_headers text response.old response.new) }
        ensures keeps { AnswersOn S.shows self.old self.new }
    {
        let page = self.page_text()?;
        send_page(response, page)
    }

    /// The text of the metrics in this turn.
    fn metrics_text(&mut self) -> Result<Bytes, AllocError>
        ensures { AnswersOn S.shows self.old self.new }
    {
        if let Some(metrics) = &self.metrics {
            return metrics.clone();
        }
        self.load_status()?;
        let Some(status) = &self.status else {
            return Err(AllocError);
        };
        let mut text = Vec::new(self.alloc);
        if write_metrics(&mut text, status).is_err() {
            return Err(AllocError);
        }
        let metrics = shared(text)?;
        self.metrics = Some(metrics.clone()?);
        Ok(metrics)
    }

    /// The metrics.
    fn metrics(&mut self, response: &mut Response) -> Result<(), AllocError>
        ensures sends { OnOk result ((text : List ℕ) × Sends response.old.status (body_headers metrics_kind) text response.old response.new) }
        ensures keeps { AnswersOn S.shows self.old self.new }
    {
        let metrics = self.metrics_text()?;
        send_shared(response, METRICS, metrics)
    }

    /// Whether the cache is healthy.
    fn health(&mut self, response: &mut Response) -> Result<(), AllocError>
        ensures sends { OnOk result (SendsKnownHealth (S.shows self.old.source) response.old response.new) }
        ensures keeps { AnswersOn S.shows self.old self.new }
    {
        self.load_status()?;
        let Some(status) = &self.status else {
            return Err(AllocError);
        };
        send_health(self.alloc, status, response)
    }

    /// Whether routers can be sent to the cache.
    fn ready(&mut self, response: &mut Response) -> Result<(), AllocError>
        ensures sends { OnOk result (SendsKnownReady (S.shows self.old.source) response.old response.new) }
        ensures keeps { AnswersOn S.shows self.old self.new }
    {
        self.load_status()?;
        let Some(status) = &self.status else {
            return Err(AllocError);
        };
        send_ready(self.alloc, status, response)
    }

    /// The status as JSON.
    fn api_status(&mut self, response: &mut Response) -> Result<(), AllocError>
        ensures sends { OnOk result (SendsKnownApi (S.shows self.old.source) response.old response.new) }
        ensures keeps { AnswersOn S.shows self.old self.new }
    {
        self.load_status()?;
        let Some(status) = &self.status else {
            return Err(AllocError);
        };
        send_api_status(self.alloc, status, response)
    }

    /// An export: the records of the source in an object with metadata.
    fn export(
        &mut self,
        form: ExportForm,
        headers: &HeaderMap,
        response: &mut Response,
    ) -> Result<(), AllocError>
        ensures sends { OnOk result (SendsKnownExport (S.shows self.old.source) form headers.now response.old response.new) }
        ensures keeps { AnswersOn S.shows self.old self.new }
    {
        let list = self.source.list(form.records())?;
        self.load_status()?;
        let Some(status) = &self.status else {
            return Err(AllocError);
        };
        send_export(self.alloc, form, status, list, headers, response)
    }

    /// The records of the source in a form.
    fn list(
        &mut self,
        form: ListForm,
        headers: &HeaderMap,
        response: &mut Response,
    ) -> Result<(), AllocError>
        ensures sends { OnOk result (SendsKnownList (S.shows self.old.source) form headers.now response.old response.new) }
        ensures keeps { AnswersOn S.shows self.old self.new }
    {
        let list = self.source.list(form)?;
        self.load_status()?;
        let Some(status) = &self.status else {
            return Err(AllocError);
        };
        let kind = form.media_type();
        send_list(self.alloc, status, list, kind, headers, response)
    }

    /// The validity of a route, as HTML or as JSON.
    fn validity(
        &mut self,
        route: &Route,
        is_html: bool,
        response: &mut Response,
    ) -> Result<(), AllocError>
        ensures sends { OnOk result (SendsKnownValidity (S.shows self.old.source) is_html route.now response.old response.new) }
        ensures keeps { AnswersOn S.shows self.old self.new }
    {
        let Some(validity) = self.source.validity(route)? else {
            return refuse_early(response);
        };
        let now = self.source.now();
        if is_html {
            send_validity_page(self.alloc, route, &validity, now, response)
        } else {
            send_validity(self.alloc, route, &validity, now, response)
        }
    }

    /// The validity of a route that was read of a query, or why there is none.
    fn judged(
        &mut self,
        route: Result<Route, QueryFault>,
        is_html: bool,
        query: &str,
        response: &mut Response,
    ) -> Result<(), AllocError>
        ensures sends { OnOk result (SendsJudged (S.shows self.old.source) is_html query.now route response.old response.new) }
        ensures keeps { AnswersOn S.shows self.old self.new }
    {
        match route {
            Ok(route) => self.validity(&route, is_html, response),
            Err(QueryFault::Memory) => Err(AllocError),
            Err(fault) if is_html => {
                let now = self.source.now();
                send_form_page(self.alloc, query, fault, now, response)
            }
            Err(fault) => {
                let text = format!(in self.alloc; "{fault}\n")?;
                send_text(response, StatusCode::BAD_REQUEST, text.as_bytes())
            }
        }
    }

    /// The validity of the route of a query. Its form depends on what the client accepts.
    fn query(&mut self, request: &Request<Bytes>, response: &mut Response) -> Result<(), AllocError>
        ensures sends { OnOk result (SendsQuery (S.shows self.old.source) (head_of request.now) response.old response.new) }
        ensures keeps { AnswersOn S.shows self.old self.new }
    {
        add_vary(response)?;
        let query = request.uri().query().unwrap_or("");
        let route = read_query(self.alloc, query);
        self.judged(route, prefers_html(request.headers()), query, response)
    }

    /// The validity of the route of a path.
    fn route(&mut self, path: &str, response: &mut Response) -> Result<(), AllocError>
        ensures sends { OnOk result (SendsRoute (S.shows self.old.source) path.now response.old response.new) }
        ensures keeps { AnswersOn S.shows self.old self.new }
    {
        let rest = route_in(path).unwrap_or("");
        self.judged(read_path(self.alloc, rest), false, "", response)
    }

    /// A resource.
    fn resource(
        &mut self,
        resource: Resource,
        request: &Request<Bytes>,
        response: &mut Response,
    ) -> Result<(), AllocError>
        ensures carries { OnOk result (CarriesOut (S.shows self.old.source) (head_of request.now) (Plan.Resource resource) response.old response.new) }
        ensures keeps { AnswersOn S.shows self.old self.new }
    {
        match resource {
            Resource::Status => self.page(response),
            Resource::Metrics => self.metrics(response),
            Resource::Health => self.health(response),
            Resource::Ready => self.ready(response),
            Resource::Live => send_ok(response),
            Resource::ApiStatus => self.api_status(response),
            Resource::Export => self.export(ExportForm::RpkiClient, request.headers(), response),
            Resource::StayRtrExport => {
                self.export(ExportForm::RpkiClient, request.headers(), response)
            }
            Resource::RoutinatorExport => {
                self.export(ExportForm::Routinator, request.headers(), response)
            }
            Resource::List => self.list(ListForm::Payloads, request.headers(), response),
            Resource::Csv => self.list(ListForm::Csv, request.headers(), response),
            Resource::RoutinatorCsv => {
                self.list(ListForm::RoutinatorCsv, request.headers(), response)
            }
            Resource::Validity => self.query(request, response),
        }
    }

    /// Plans the answer to a request, and carries it out.
    fn answer(
        &mut self,
        request: &Request<Bytes>,
        response: &mut Response,
    ) -> Result<(), AllocError>
        requires { IsBlank response.old }
        ensures planned { OnOk result (IsPlanned (S.shows self.old.source) self.old.name (head_of request.now) response.new) }
        ensures keeps { AnswersOn S.shows self.old self.new }
    {
        let plan = plan_of(request, self.name);
        let now = self.source.now();
        add_date(self.alloc, now, response)?;
        self.carry_out(plan, request, response)
    }

    /// Carries out what was planned.
    fn carry_out(
        &mut self,
        plan: Plan,
        request: &Request<Bytes>,
        response: &mut Response,
    ) -> Result<(), AllocError>
        ensures carries { OnOk result (CarriesOut (S.shows self.old.source) (head_of request.now) plan response.old response.new) }
        ensures keeps { AnswersOn S.shows self.old self.new }
    {
        match plan {
            Plan::InvalidHost => refuse_host(response),
            Plan::NotServed => refuse_name(response),
            Plan::NotFound => refuse_path(response),
            Plan::NotAllowed => refuse_method(response),
            Plan::Resource(resource) => self.resource(resource, request, response),
            Plan::Route => self.route(request.uri().path(), response),
        }
    }
}

impl<S: StatusSource> Service for Answers<'_, S> {
    ghost answers = { λ old request response new. AnswersSo (S.shows old.source) old.name (head_of request) response × AnswersOn S.shows old new };

    fn call(
        &mut self,
        request: &Request<Bytes>,
        response: &mut Response,
    ) -> Result<(), AllocError> {
        if self.answer(request, response).is_err() {
            response.clear();
            response.status = StatusCode::SERVICE_UNAVAILABLE;
        }
        Ok(())
    }
}
